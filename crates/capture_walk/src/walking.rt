//! The walks of a capture.
ghost use Rattle.frame_edit.specs.declared.limits.TheConstants.{FRAME_MAX};
ghost use Rattle.std.specs.Prelude.{◌≡◌, ◌≤◌, ◌++◌, length, map, slice_get, Some, IfOk, OnOk};
ghost use Rattle.std.specs.List.{flat_map};
ghost use Rattle.tc_base.specs.Pieces.{joined};
ghost use Rattle.pcap_io.specs.Captures.{AreShort};
ghost use Rattle.pcap_io.specs.Places.{packet_of};
ghost use Rattle.pcap_io.specs.Written.{packet_bytes, capture_bytes};
ghost use Rattle.filter_state.specs.States.{State};
ghost use Rattle.filter_lists.specs.Spells.{Spells};
ghost use Rattle.plain_walk.specs.Walked.{walked_from};
ghost use Rattle.walk_ends.specs.declared.limits.TheConstants.{PACKETS_MAX};
ghost use Rattle.capture_walk.specs.Captures.{outcomes_of, end_of, output_of, counts_of, executed_in};
ghost use Rattle.capture_walk.specs.Captures.{passed_one};

use crate::counts::{add_executed, no_counts};
use crate::end_list::Ends;
use crate::ends::PacketEnd;
use crate::regrowing::regrown;
use filter_lists::Lists;
use pcap_io::{Capture, Excerpt, PacketView};
use plain_walk::PlainWalk;
use std::alloc::Global;
use tc_base::{Hook, NoMemory, Pieces};
use walk_ends::Count;
use walk_rules::Verdict;

/// What the walks of a capture leave.
#[derive(Drop)]
pub struct WalkedCapture<'a> {
    /// How each packet's walk ended, in order.
    pub ends: Ends,
    /// The bytes of the output capture: the packets that passed, in order, with their frames as they then
    /// were. Of those that no action changed they are stretches of the input.
    pub output: Pieces<'a>,
    /// How often each action ran, by serial from 1.
    pub counts: Vec<Count>,
}

// The same while packets are walked.
#[derive(Drop)]
struct Leaving<'a> {
    ends: Ends,
    output: Excerpt<'a>,
    counts: Vec<Count>,
}

impl<'a> Leaving<'a> {
    ghost use Rattle.frame_edit.specs.declared.limits.TheConstants.{FRAME_MAX};
    ghost use Rattle.std.specs.Prelude.{◌≡◌, ◌+◌, ◌≤◌, ℕ, [], length, slice_get, Some, IfOk, OnOk};
    ghost use Rattle.pcap_io.specs.Places.{packet_of};
    ghost use Rattle.pcap_io.specs.Written.{header_bytes};
    ghost use Rattle.filter_state.specs.Sound.{Each};
    ghost use Rattle.plain_walk.specs.Walked.{walked_from};
    ghost use Rattle.capture_walk.specs.Captures.{no_counts, AreFew};
    ghost use Rattle.capture_walk.specs.Room.{HasRoomForRun};
    ghost use Rattle.capture_walk.specs.Adding.{IsAdded};

    // Nothing was walked yet: room for the packets, and a count for each of so many actions.
    fn with_room(alloc: Global, capture: &'a Capture, actions: u32) -> Result<Leaving<'a>, NoMemory>
        ensures ends { IfOk result (λ w. w.ends ≡ []) }
        ensures of { IfOk result (λ w. w.output.of ≡ capture.now) }
        ensures output { IfOk result (λ w. w.output.bytes ≡ header_bytes capture.now.big capture.now.nanos) }
        ensures counts { IfOk result (λ w. w.counts.items ≡ no_counts actions) }
    {
        Ok(Leaving {
            ends: Ends::with_room(alloc, capture.packets.len())?,
            output: Excerpt::new(alloc, capture)?,
            counts: no_counts(alloc, actions)?,
        })
    }

    // Adds what the walk of the packet of this place leaves.
    fn add(
        &mut self,
        walk: &PlainWalk,
        index: usize,
        packet: PacketView<'_>,
    ) -> Result<(), NoMemory>
        requires room { Each HasRoomForRun self.old.counts.items }
        requires short { length packet.bytes.now ≤ FRAME_MAX }
        requires place { slice_get self.old.output.of.packets index ≡ Some (packet_of packet) }
        ensures added { OnOk result (IsAdded (packet_of packet.entry) self.old self.new
            (walked_from (packet_of packet.entry).bytes walk.now)) }
        ensures of { self.new.output.of ≡ self.old.output.of }
        ensures few { OnOk result ((walks : ℕ) → AreFew walks self.old.counts.items
            → AreFew (walks + 1) self.new.counts.items) }
    {
        self.ends.push(PacketEnd::of_walk(walk, packet.bytes))?;
        add_executed(&mut self.counts, walk.executed());
        keep(&mut self.output, walk, index, packet)
    }
}

/// Walks each of at most 1,048,576 packets of a capture on its own through a hook of the lists.
///
/// `NoMemory`: memory was refused.
pub fn walk_capture<'a>(
    alloc: Global,
    lists: &Lists,
    hook: Hook,
    capture: &'a Capture,
) -> Result<WalkedCapture<'a>, NoMemory>
    requires few { length capture.now.packets ≤ PACKETS_MAX }
    requires short { AreShort capture.now.packets }
    ensures ends { IfOk result (λ w. (s : State) → Spells lists.now s
        → w.ends ≡ map end_of (outcomes_of s hook capture.now.packets)) }
    ensures output { IfOk result (λ w. (s : State) → Spells lists.now s
        → joined w.output.pieces ≡ capture_bytes (output_of s hook capture.now)) }
    ensures counts { IfOk result (λ w. (s : State) → Spells lists.now s
        → w.counts.items ≡ counts_of s.actions_made (executed_in (outcomes_of s hook capture.now.packets))) }
{
    let mut walk = PlainWalk::with_room(alloc)?;
    let mut leaving = Leaving::with_room(alloc, capture, lists.actions().made())?;
    for index in 0..capture.packets.len() {
        let packet = capture.packets.get(index);
        walk.run(lists, hook, packet.bytes);
        leaving.add(&walk, index, packet)?;
    }
    let Leaving {
        ends,
        output,
        counts,
    } = leaving;
    Ok(WalkedCapture {
        ends,
        output: output.into_pieces(),
        counts,
    })
}

// Puts the packet behind those that passed, as its walk left it, unless it was dropped.
fn keep(
    output: &mut Excerpt<'_>,
    walk: &PlainWalk,
    index: usize,
    packet: PacketView<'_>,
) -> Result<(), NoMemory>
    requires short { length packet.bytes.now ≤ FRAME_MAX }
    requires place { slice_get output.old.of.packets index ≡ Some (packet_of packet) }
    ensures of { output.new.of ≡ output.old.of }
    ensures kept { OnOk result (output.new.bytes ≡ output.old.bytes
        ++ flat_map (packet_bytes output.old.of.big)
        (passed_one (packet_of packet.entry) (walked_from (packet_of packet.entry).bytes walk.now))) }
{
    if let Verdict::Drop = walk.verdict() {
        return Ok(());
    }
    if walk.edited().is_none() {
        return output.keep(index);
    }
    let bytes = walk.bytes(packet.bytes);
    output.push(PacketView {
        seconds: packet.seconds,
        fraction: packet.fraction,
        original: regrown(packet.original, packet.bytes.len(), bytes.len()),
        bytes,
    })
}
