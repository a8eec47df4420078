ghost use Rattle.std.specs.Prelude.{◌≡◌, ◌==◌, ◌+◌, ◌<◌, ◌^◌, ◌++◌, [], ◌∷◌, length, sum_by, slice_get, Some};
ghost use Rattle.std.specs.Prelude.{map, IfOk, OnOk, OnErr};
ghost use Rattle.pcap_io.specs.Places.{packet_of, packet_in, ArePlaced};

use crate::layout::{CONTENT_MAX, RECORD};
use crate::records::view_at;
use crate::writing::put_packet;
use crate::{PacketIter, PacketView};
use std::alloc::Global;
use std::marker::Model;
use tc_base::{NoMemory, check_room};

/// A list of packets. All of them lie in one buffer, each as its record and then its bytes.
#[derive(Drop)]
pub struct Packets {
    pub(crate) content: Vec<u8>,
    // whether the numbers of the records stand with the highest byte first
    pub(crate) big: bool,
    // where each record begins
    pub(crate) starts: Vec<u32>,
    // the bytes of all packets together
    captured: usize,
}

impl Model for Packets {
    ghost use Rattle.std.specs.Prelude.{List, map};
    ghost use Rattle.pcap_io.specs.declared.capture.Packet.{Packet};
    ghost use Rattle.pcap_io.specs.Places.{packet_in, ArePlaced};

    ghost Value = { List Packet };

    ghost view = { λ p. map (packet_in p.big p.content.items) p.starts.items };

    ghost invariant = { λ p. ArePlaced p.big p.content.items p.starts.items p.captured };
}

impl Packets {
    /// No packet yet. Takes no memory.
    pub fn new(alloc: Global) -> Self
        ensures { result ≡ [] }
    {
        Packets::over(Vec::new(alloc), false, Vec::new(alloc), 0)
    }

    /// No packet yet, with room for so many packets of so many bytes together.
    pub fn with_room(alloc: Global, packets: usize, bytes: usize) -> Result<Self, NoMemory>
        ensures { IfOk result (λ p. p ≡ []) }
    {
        let room = packets.saturating_mul(RECORD).saturating_add(bytes);
        let content = Vec::with_capacity(alloc, room)?;
        let starts = Vec::with_capacity(alloc, packets)?;
        Ok(Packets::over(content, false, starts, 0))
    }

    // The packets whose records begin at these places of a buffer.
    pub(crate) fn over(content: Vec<u8>, big: bool, starts: Vec<u32>, captured: usize) -> Self
        requires { ArePlaced big content.items starts.items captured }
        ensures { result ≡ map (packet_in big content.items) starts.items }
    {
        Packets {
            content,
            big,
            starts,
            captured,
        }
    }

    /// Puts a copy of the packet at the end. Refused, the list stays as it was. A packet with which all
    /// packets and their records' 16 bytes each would reach 4 GiB is refused as want of memory.
    pub fn push(&mut self, packet: PacketView<'_>) -> Result<(), NoMemory>
        ensures ok { OnOk result (self.new ≡ self.old ++ packet_of packet.entry ∷ []) }
        ensures err { OnErr result (self.new ≡ self.old) }
    {
        let start = start_behind(self.content.len(), packet.bytes.len())?;
        // Room for the place comes first: then nothing can fail once the packet is in the buffer.
        self.starts.reserve(1)?;
        put_packet(&mut self.content, self.big, packet)?;
        self.starts.push(start)?;
        self.captured += packet.bytes.len();
        Ok(())
    }

    /// How many packets there are.
    pub fn len(&self) -> usize
        ensures { result ≡ length self.now }
    {
        self.starts.len()
    }

    /// Whether there is no packet.
    pub fn is_empty(&self) -> bool
        ensures { result ≡ (length self.now == 0) }
    {
        self.starts.is_empty()
    }

    /// How many bytes the packets have together, without their records' 16 bytes each.
    pub fn byte_count(&self) -> usize
        ensures { result ≡ sum_by (λ p. length p.bytes) self.now }
    {
        self.captured
    }

    /// One packet, counted from 0.
    pub fn get(&self, index: usize) -> PacketView<'_>
        requires { index < length self.now }
        ensures { slice_get self.now index ≡ Some (packet_of result) }
    {
        view_at(self.big, &self.content, self.starts[index] as usize)
    }

    /// The packets in order.
    pub fn iter(&self) -> PacketIter<'_>
        ensures packets { result ≡ self.now }
        // What `count` asks of a chain over the packets.
        ensures fits { length result < 2 ^ 64 }
    {
        // For the proof of `fits`: the number of packets is a `usize`.
        let _count = self.len();
        PacketIter::over(self)
    }
}

// Where the record of a packet of so many bytes begins behind so many others, unless it would end past
// what 32 bits reach.
fn start_behind(before: usize, length: usize) -> Result<u32, NoMemory>
    requires { before < 2 ^ 32 }
    ensures place { IfOk result (λ start. start ≡ before) }
    ensures reached { IfOk result (λ _. before + 16 + length < 2 ^ 32) }
{
    let end = (before + RECORD).saturating_add(length);
    check_room(end, CONTENT_MAX)?;
    Ok(before as u32)
}
