ghost use Rattle.std.specs.Prelude.{◌≡◌, ◌<◌, ◌≤◌, ◌^◌, length, map, Bool, true, IfOk, IfErr};
ghost use Rattle.std.specs.Prelude.{MatchResult};
ghost use Rattle.std.specs.Option.{option_map};
ghost use Rattle.pcap_io.specs.Layout.{number_in, kind_of};
ghost use Rattle.pcap_io.specs.Places.{length_at, packet_in, ArePlaced};
ghost use Rattle.pcap_io.specs.Captures.{IsCapture, IsHeader, IsPacketAt, StandFrom, PacketFault};
ghost use Rattle.pcap_io.specs.Captures.{FaultBehind, HasFault, AreShort};

use crate::layout::{CONTENT_MAX, HEADER, PACKET_MAX, RECORD};
use crate::records::{u16_at, u32_at};
use crate::{Capture, CaptureFault, Packets};
use byteorder::{BigEndian, ByteOrder};
use std::alloc::Global;
use tc_base::check_room;

// The record of the shortest whole Ethernet frame, which has 60 bytes without its checksum. Captures
// of whole frames so get their list of places at once; where frames were cut off, the list grows.
const SHORTEST_RECORD: usize = 76;

// The order and the unit of fractions that the magic word says.
#[tactic(auto, unfolding(crate::specs::Layout::kind_of))]
fn kind_at_front(bytes: &[u8]) -> Option<(bool, bool)>
    requires { 4 ≤ length bytes.now }
    ensures { option_map (λ (p : Bool × Bool). record { big = p.0; nanos = p.1 }) result
        ≡ kind_of (number_in true 4 bytes.now) }
{
    match BigEndian::read_u32(bytes) {
        0xa1b2_c3d4 => Some((true, false)),
        0xd4c3_b2a1 => Some((false, false)),
        0xa1b2_3c4d => Some((true, true)),
        0x4d3c_b2a1 => Some((false, true)),
        _ => None,
    }
}

// The order and the unit of fractions, or the header's first fault.
fn header(bytes: &[u8]) -> Result<(bool, bool), CaptureFault>
    ensures { MatchResult result (λ p. IsHeader bytes.now p.0 p.1) (HasFault bytes.now) }
{
    if bytes.len() < HEADER {
        return Err(CaptureFault::CutHeader {
            offset: bytes.len() as u64,
        });
    }
    let Some((big, nanos)) = kind_at_front(bytes) else {
        return Err(CaptureFault::BadMagic);
    };
    if u16_at(big, bytes, 4) != 2 || u16_at(big, bytes, 6) != 4 {
        return Err(CaptureFault::BadVersion);
    }
    if u32_at(big, bytes, 20) != 1 {
        return Err(CaptureFault::NotEthernet);
    }
    Ok((big, nanos))
}

// How many bytes the packet at the offset has.
#[inline]
fn captured_at(big: bool, bytes: &[u8], at: usize) -> Result<u32, CaptureFault>
    requires { at < length bytes.now }
    ensures packet { IfOk result (λ _. IsPacketAt big bytes.now at (packet_in big bytes.now at)) }
    ensures captured { IfOk result (λ captured. captured ≡ length_at big bytes.now at) }
    ensures fault { IfErr result (PacketFault big bytes.now at) }
{
    let cut = CaptureFault::CutRecord { offset: at as u64 };
    let rest = bytes.len() - at;
    if rest < RECORD {
        return Err(cut);
    }
    let length = u32_at(big, bytes, at + 8);
    if length > PACKET_MAX {
        return Err(CaptureFault::TooLong {
            offset: at as u64,
            length,
        });
    }
    if rest - RECORD < length as usize {
        return Err(cut);
    }
    Ok(length)
}

// Where the packets behind the header begin, up to the end of the bytes, and how many bytes they have
// together.
fn starts_of(alloc: Global, big: bool, bytes: &[u8]) -> Result<(Vec<u32>, usize), CaptureFault>
    requires whole { 24 ≤ length bytes.now }
    requires reached { length bytes.now < 2 ^ 32 }
    ensures packets { IfOk result (λ found. StandFrom big bytes.now 24
        (map (packet_in big bytes.now) found.0.items) (length bytes.now)) }
    ensures placed { IfOk result (λ found. ArePlaced big bytes.now found.0.items found.1) }
    ensures fault { IfErr result (FaultBehind big bytes.now) }
{
    let mut starts = Vec::with_capacity(alloc, bytes.len() / SHORTEST_RECORD)?;
    let mut captured = 0;
    let mut at = HEADER;
    while at < bytes.len() {
        let length = captured_at(big, bytes, at)? as usize;
        starts.push(at as u32)?;
        captured += length;
        at += RECORD + length;
    }
    Ok((starts, captured))
}

// The packets behind the header, up to the end of the bytes, which they take over.
fn packets_of(alloc: Global, big: bool, bytes: Vec<u8>) -> Result<Packets, CaptureFault>
    requires whole { 24 ≤ length bytes.items }
    requires reached { length bytes.items < 2 ^ 32 }
    ensures packets { IfOk result (λ packets. StandFrom big bytes.items 24 packets (length bytes.items)) }
    ensures short { IfOk result AreShort }
    ensures fault { IfErr result (FaultBehind big bytes.items) }
{
    let (starts, captured) = starts_of(alloc, big, &bytes)?;
    Ok(Packets::over(bytes, big, starts, captured))
}

/// The capture that the bytes are, or their first fault. Takes over their buffer and copies none of them;
/// besides it takes 4 bytes a packet, for all packets at once where no frame has fewer than 60 bytes.
/// Bytes of 4 GiB and more are refused as want of memory.
pub fn read_whole(alloc: Global, bytes: Vec<u8>) -> Result<Capture, CaptureFault>
    ensures capture { IfOk result (IsCapture bytes.items) }
    ensures short { IfOk result (λ c. AreShort c.packets) }
    ensures fault { IfErr result (HasFault bytes.items) }
{
    let (big, nanos) = header(&bytes)?;
    check_room(bytes.len(), CONTENT_MAX)?;
    let packets = packets_of(alloc, big, bytes)?;
    Ok(Capture {
        big,
        nanos,
        packets,
    })
}
