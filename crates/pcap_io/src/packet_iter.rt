ghost use Rattle.std.specs.Prelude.{◌≡◌};
ghost use Rattle.std.specs.Iterator.{YieldsFirstBy, item_count};
ghost use Rattle.pcap_io.specs.Places.{packet_of};

use crate::{PacketView, Packets};
use std::marker::Model;

/// Lends the packets of a list in order, from `Packets::iter`. Contracts see the packets that are left.
#[derive(Drop)]
pub struct PacketIter<'a> {
    packets: &'a Packets,
    next: usize,
}

impl<'a> Model for PacketIter<'a> {
    ghost use Rattle.std.specs.Prelude.{List, drop, length, ◌≤◌};
    ghost use Rattle.pcap_io.specs.declared.capture.Packet.{Packet};

    ghost Value = { List Packet };

    ghost view = { λ i. drop i.next i.packets.now };

    ghost invariant = { λ i. i.next ≤ length i.packets.now };
}

impl<'a> PacketIter<'a> {
    pub(crate) fn over(packets: &'a Packets) -> Self
        ensures { result ≡ packets.now }
    {
        PacketIter { packets, next: 0 }
    }
}

impl<'a> Iterator for PacketIter<'a> {
    type Item = PacketView<'a>;

    ghost next_gives = { YieldsFirstBy packet_of (λ i. i) };

    ghost remaining = { item_count (λ i. i) };

    fn next(&mut self) -> Option<PacketView<'a>> {
        if self.next == self.packets.len() {
            return None;
        }
        let packet = self.packets.get(self.next);
        self.next += 1;
        Some(packet)
    }
}

impl<'a> IntoIterator for &'a Packets {
    type Item = PacketView<'a>;

    type IntoIter = PacketIter<'a>;

    ghost into_iter_gives = { λ packets it. it ≡ packets.now };

    fn into_iter(self) -> PacketIter<'a> {
        self.iter()
    }
}
