//! The capture of the packets that passed.
ghost use Rattle.frame_edit.specs.declared.limits.TheConstants.{FRAME_MAX};
ghost use Rattle.std.specs.Prelude.{◌≡◌, ◌≤◌, ◌++◌, length, slice_get, Some, IfOk, OnOk};
ghost use Rattle.std.specs.List.{flat_map};
ghost use Rattle.tc_base.specs.declared.hook.Hook.{Hook};
ghost use Rattle.tc_base.specs.Pieces.{joined};
ghost use Rattle.pcap_io.specs.Places.{packet_of};
ghost use Rattle.pcap_io.specs.Written.{packet_bytes, capture_bytes};
ghost use Rattle.walk_ends.specs.Passing.{passed_by};
ghost use Rattle.run_report.specs.Kept.{outcome_seen};
ghost use Rattle.lawful_runs.specs.Outcomes.{left_packet};
ghost use Rattle.tool_run.specs.OfOutputs.Outputs.{passed_capture};
ghost use Rattle.tool_run.specs.OfOutputs.Ready.{AreWalks};

use capture_walk::regrown;
use pcap_io::{Capture, Excerpt, PacketView};
use run_report::{OutcomeView, Outcomes};
use std::alloc::Global;
use tc_base::{NoMemory, Pieces};
use walk_rules::Verdict;

/// The bytes of a capture of the packets that passed, as their walks left them. Of those that no walk changed
/// they are stretches of the capture in which the packets came.
///
/// `NoMemory`: memory was refused.
pub(crate) fn passed_of<'a>(
    alloc: Global,
    capture: &'a Capture,
    outcomes: &Outcomes,
) -> Result<Pieces<'a>, NoMemory>
    requires { AreWalks capture.now outcomes.now }
    ensures { IfOk result (λ output. (hook : Hook)
        → joined output.pieces ≡ capture_bytes (passed_capture hook capture.now outcomes.now)) }
{
    let mut output = Excerpt::new(alloc, capture)?;
    for index in 0..capture.packets.len() {
        let packet = capture.packets.get(index);
        keep(&mut output, index, packet, outcomes.at(index))?;
    }
    Ok(output.into_pieces())
}

// Puts the packet of this place behind those that passed, as its walk left it, unless it was dropped.
fn keep(
    output: &mut Excerpt<'_>,
    index: usize,
    packet: PacketView<'_>,
    outcome: OutcomeView<'_>,
) -> Result<(), NoMemory>
    requires came { length packet.bytes.now ≤ FRAME_MAX }
    requires left { length outcome.bytes.now ≤ FRAME_MAX }
    requires place { slice_get output.old.of.packets index ≡ Some (packet_of packet) }
    ensures of { output.new.of ≡ output.old.of }
    ensures kept { OnOk result (output.new.bytes ≡ output.old.bytes
        ++ flat_map (packet_bytes output.old.of.big)
        (passed_by outcome.entry.verdict (left_packet (packet_of packet.entry) (outcome_seen outcome.entry)))) }
{
    if let Verdict::Drop = outcome.verdict {
        return Ok(());
    }
    if outcome.bytes == packet.bytes {
        return output.keep(index);
    }
    output.push(PacketView {
        seconds: packet.seconds,
        fraction: packet.fraction,
        original: regrown(packet.original, packet.bytes.len(), outcome.bytes.len()),
        bytes: outcome.bytes,
    })
}
