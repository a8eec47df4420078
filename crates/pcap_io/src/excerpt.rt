//! An output that is made of an input capture.
ghost use Rattle.std.specs.Prelude.{◌≡◌, ◌+◌, ◌<◌, ◌≤◌, ◌^◌, length, take, drop};
ghost use Rattle.pcap_io.specs.Layout.{bytes_in, number_in};
ghost use Rattle.pcap_io.specs.Places.{packet_in, length_at, IsWithin};
ghost use Rattle.pcap_io.specs.Written.{packet_bytes};

use crate::layout::RECORD;
use crate::records::{u32_at, view_at};
use crate::writing::{put_header, record_of};
use crate::{Capture, PacketView};
use std::alloc::Global;
use std::marker::Model;
use tc_base::{NoMemory, Pieces};

/// The bytes of an output capture that is made of an input's packets. One that stays as it is takes a stretch
/// of the input's buffer; others are bytes of its own. Contracts see the input and the bytes so far.
#[derive(Drop)]
pub struct Excerpt<'a> {
    content: &'a [u8],
    starts: &'a [u32],
    // whether the numbers in the buffer stand with the highest byte first
    buffer_big: bool,
    // the same for those of the capture
    big: bool,
    nanos: bool,
    pieces: Pieces<'a>,
}

impl<'a> Model for Excerpt<'a> {
    ghost use Rattle.std.specs.Prelude.{map};
    ghost use Rattle.tc_base.specs.Pieces.{joined};
    ghost use Rattle.pcap_io.specs.Places.{packet_in};
    ghost use Rattle.pcap_io.specs.Excerpts.{Excerpted, IsExcerpt};

    ghost Value = { Excerpted };

    ghost view = { λ e. record {
      of = record {
        big = e.big;
        nanos = e.nanos;
        packets = map (packet_in e.buffer_big e.content.now) e.starts.now;
      };
      bytes = joined e.pieces.pieces;
    } };

    ghost invariant = { λ e. IsExcerpt e.buffer_big e.content.now e.starts.now e.pieces };
}

impl<'a> Excerpt<'a> {
    ghost use Rattle.std.specs.Prelude.{◌≡◌, ◌+◌, ◌<◌, ◌^◌, ◌++◌, length, slice_get, Some, IfOk, OnOk, OnErr};
    ghost use Rattle.tc_base.specs.Pieces.{joined};
    ghost use Rattle.pcap_io.specs.declared.capture.Packet.{Packet};
    ghost use Rattle.pcap_io.specs.Places.{packet_of};
    ghost use Rattle.pcap_io.specs.Written.{header_bytes, packet_bytes};

    /// No packet yet, behind the header of a capture of the same kind.
    pub fn new(alloc: Global, of: &'a Capture) -> Result<Excerpt<'a>, NoMemory>
        ensures of { IfOk result (λ e. e.of ≡ of.now) }
        ensures bytes { IfOk result (λ e. e.bytes ≡ header_bytes of.now.big of.now.nanos) }
    {
        let packets = &of.packets;
        let mut header = Vec::new(alloc);
        put_header(&mut header, of.big, of.nanos)?;
        let mut pieces = Pieces::over(alloc, &packets.content);
        pieces.push(&header)?;
        Ok(Excerpt {
            content: &packets.content,
            starts: &packets.starts,
            buffer_big: packets.big,
            big: of.big,
            nanos: of.nanos,
            pieces,
        })
    }

    /// Puts a packet of the input behind what is there, as it is.
    ///
    /// Refused, a part of the packet may stand there.
    pub fn keep(&mut self, index: usize) -> Result<(), NoMemory>
        requires { index < length self.old.of.packets }
        ensures of { self.new.of ≡ self.old.of }
        ensures bytes { (packet : Packet) → slice_get self.old.of.packets index ≡ Some packet
            → OnOk result (self.new.bytes ≡ self.old.bytes ++ packet_bytes self.old.of.big packet) }
    {
        let starts = self.starts;
        let start = starts[index];
        if self.buffer_big != self.big {
            let packet = view_at(self.buffer_big, self.content, start as usize);
            return self.push(packet);
        }
        let end = record_end(self.big, self.content, start);
        self.pieces.lend(start, end)
    }

    /// Puts another packet behind what is there.
    ///
    /// Refused, a part of the packet may stand there.
    pub fn push(&mut self, packet: PacketView<'_>) -> Result<(), NoMemory>
        requires { length packet.bytes.now < 2 ^ 32 }
        ensures of { self.new.of ≡ self.old.of }
        ensures bytes { OnOk result (self.new.bytes
            ≡ self.old.bytes ++ packet_bytes self.old.of.big (packet_of packet.entry)) }
    {
        self.pieces.push(&record_of(self.big, packet))?;
        self.pieces.push(packet.bytes)
    }

    /// All bytes so far.
    pub fn into_pieces(self) -> Pieces<'a>
        ensures { joined result.pieces ≡ self.entry.bytes }
    {
        self.pieces
    }
}

// Where the packet ends whose record begins at a place. What stands between is just what is written for it.
fn record_end(big: bool, content: &[u8], start: u32) -> u32
    requires within { IsWithin big content.now start }
    requires reached { length content.now < 2 ^ 32 }
    ensures end { result ≡ start + (16 + length_at big content.now start) }
    ensures bytes { take (16 + length_at big content.now start) (drop start content.now)
        ≡ packet_bytes big (packet_in big content.now start) }
{
    let at = start as usize;
    number_stands(big, content, at);
    number_stands(big, content, at + 4);
    number_stands(big, content, at + 8);
    number_stands(big, content, at + 12);
    start + RECORD as u32 + u32_at(big, content, at + 8)
}

// A number is spelled by the bytes from which it is read: they are read here, so that their range is known.
#[inline]
fn number_stands(big: bool, bytes: &[u8], at: usize)
    requires { at + 4 ≤ length bytes.now }
    ensures { take 4 (drop at bytes.now) ≡ bytes_in big 4 (number_in big 4 (drop at bytes.now)) }
{
    let _word = [bytes[at], bytes[at + 1], bytes[at + 2], bytes[at + 3]];
}
