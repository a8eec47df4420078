ghost use Rattle.std.specs.Prelude.{◌≡◌, ◌++◌, ◌<◌, ◌^◌, length, OnOk, OnErr, IfOk};
ghost use Rattle.pcap_io.specs.Layout.{bytes_in};
ghost use Rattle.pcap_io.specs.Places.{packet_of, packet_in, IsWithin};
ghost use Rattle.pcap_io.specs.Written.{magic_of, header_bytes, record_bytes, packet_bytes, capture_bytes};
ghost use Rattle.pcap_io.specs.Captures.{AreShort, IsCapture};

use crate::layout::{HEADER, RECORD, SNAP_LENGTH};
use crate::{Capture, PacketView};
use byteorder::{BigEndian, ByteOrder, LittleEndian};
use std::alloc::{AllocError, Global};
use tc_base::NoMemory;

fn put_u16(out: &mut Vec<u8>, big: bool, number: u16) -> Result<(), AllocError>
    ensures { OnOk result (out.new.items ≡ out.old.items ++ bytes_in big 2 number) }
{
    let mut word = [0u8; 2];
    if big {
        BigEndian::write_u16(&mut word, number);
    } else {
        LittleEndian::write_u16(&mut word, number);
    }
    out.extend_from_slice(&word)
}

fn put_u32(out: &mut Vec<u8>, big: bool, number: u32) -> Result<(), AllocError>
    ensures { OnOk result (out.new.items ≡ out.old.items ++ bytes_in big 4 number) }
{
    let mut word = [0u8; 4];
    if big {
        BigEndian::write_u32(&mut word, number);
    } else {
        LittleEndian::write_u32(&mut word, number);
    }
    out.extend_from_slice(&word)
}

fn magic_word(nanos: bool) -> u32
    ensures { result ≡ magic_of nanos }
{
    if nanos { 0xa1b2_3c4d } else { 0xa1b2_c3d4 }
}

pub(crate) fn put_header(out: &mut Vec<u8>, big: bool, nanos: bool) -> Result<(), AllocError>
    ensures { OnOk result (out.new.items ≡ out.old.items ++ header_bytes big nanos) }
{
    put_u32(out, big, magic_word(nanos))?;
    put_u16(out, big, 2)?;
    put_u16(out, big, 4)?;
    put_u32(out, big, 0)?;
    put_u32(out, big, 0)?;
    put_u32(out, big, SNAP_LENGTH)?;
    put_u32(out, big, 1)
}

// The four numbers before a packet's bytes, in one piece so that they are appended at once.
#[inline]
pub(crate) fn record_of(big: bool, packet: PacketView<'_>) -> [u8; RECORD]
    requires { length packet.bytes.now < 2 ^ 32 }
    ensures { result ≡ record_bytes big (packet_of packet.entry) }
{
    let numbers = [
        packet.seconds,
        packet.fraction,
        packet.bytes.len() as u32,
        packet.original,
    ];
    let mut record_bytes = [0u8; RECORD];
    if big {
        BigEndian::write_u32_into(&numbers, &mut record_bytes);
    } else {
        LittleEndian::write_u32_into(&numbers, &mut record_bytes);
    }
    record_bytes
}

// Puts the packet's record and bytes at the end, or nothing.
#[inline]
pub(crate) fn put_packet(
    out: &mut Vec<u8>,
    big: bool,
    packet: PacketView<'_>,
) -> Result<(), AllocError>
    requires { length packet.bytes.now < 2 ^ 32 }
    ensures bytes { OnOk result (out.new.items ≡ out.old.items ++ packet_bytes big (packet_of packet.entry)) }
    ensures within { OnOk result (IsWithin big out.new.items (length out.old.items)) }
    ensures stands { OnOk result
        (packet_in big out.new.items (length out.old.items) ≡ packet_of packet.entry) }
    ensures err { OnErr result (out.new.items ≡ out.old.items) }
{
    let record = record_of(big, packet);
    // Room for both comes first: then nothing can fail once the record is there.
    out.reserve(RECORD + packet.bytes.len())?;
    out.extend_from_slice(&record)?;
    out.extend_from_slice(packet.bytes)?;
    Ok(())
}

// How many bytes `write` makes. It only reserves them, so a length that no memory has may saturate.
fn written_len(capture: &Capture) -> usize {
    let records = capture.packets.len().saturating_mul(RECORD);
    capture
        .packets
        .byte_count()
        .saturating_add(records)
        .saturating_add(HEADER)
}

/// The bytes of a capture: version 2.4, the two reserved words 0, snap length 262,144, link type 1,
/// and the packets in order. Takes its memory at once.
pub fn write(alloc: Global, capture: &Capture) -> Result<Vec<u8>, NoMemory>
    requires { AreShort capture.now.packets }
    ensures capture { IfOk result (λ v. IsCapture v.items capture.now) }
    ensures bytes { IfOk result (λ v. v.items ≡ capture_bytes capture.now) }
{
    let mut out = Vec::with_capacity(alloc, written_len(capture))?;
    put_header(&mut out, capture.big, capture.nanos)?;
    for index in 0..capture.packets.len() {
        put_packet(&mut out, capture.big, capture.packets.get(index))?;
    }
    Ok(out)
}
