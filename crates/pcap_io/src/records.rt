//! Numbers and packets, as they stand in bytes.
ghost use Rattle.std.specs.Prelude.{◌≡◌, ◌+◌, ◌≤◌, length, drop};
ghost use Rattle.pcap_io.specs.Layout.{number_in};
ghost use Rattle.pcap_io.specs.Places.{packet_of, packet_in, IsWithin};

use crate::PacketView;
use crate::layout::RECORD;
use byteorder::{BigEndian, ByteOrder, LittleEndian};

pub(crate) fn u16_at(big: bool, bytes: &[u8], at: usize) -> u16
    requires { at + 2 ≤ length bytes.now }
    ensures { result ≡ number_in big 2 (drop at bytes.now) }
{
    if big {
        BigEndian::read_u16(&bytes[at..])
    } else {
        LittleEndian::read_u16(&bytes[at..])
    }
}

#[inline]
pub(crate) fn u32_at(big: bool, bytes: &[u8], at: usize) -> u32
    requires { at + 4 ≤ length bytes.now }
    ensures { result ≡ number_in big 4 (drop at bytes.now) }
{
    if big {
        BigEndian::read_u32(&bytes[at..])
    } else {
        LittleEndian::read_u32(&bytes[at..])
    }
}

// The packet whose record begins at a place, lent from the bytes.
#[inline]
pub(crate) fn view_at(big: bool, bytes: &[u8], at: usize) -> PacketView<'_>
    requires { IsWithin big bytes.now at }
    ensures { packet_of result ≡ packet_in big bytes.now at }
{
    let start = at + RECORD;
    let end = start + u32_at(big, bytes, at + 8) as usize;
    PacketView {
        seconds: u32_at(big, bytes, at),
        fraction: u32_at(big, bytes, at + 4),
        original: u32_at(big, bytes, at + 12),
        bytes: &bytes[start..end],
    }
}
