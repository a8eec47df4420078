//! Writing a trace.
ghost use Rattle.std.specs.Prelude.{◌≡◌, ◌≤◌, ◌+◌, ◌++◌, ℕ, List, length, IfOk, OnOk, IsErrOf};
ghost use Rattle.tc_base.specs.Outside.{Rose, Appended, AppendsUpTo};
ghost use Rattle.pcap_io.specs.Captures.{AreShort};
ghost use Rattle.walk_ends.specs.declared.limits.TheConstants.{PACKETS_MAX};
ghost use Rattle.walk_texts.specs.Texts.{joined};
ghost use Rattle.walk_trace.specs.Tallies.{count_at, times_in};
ghost use Rattle.filter_state.specs.Sound.{Each};
ghost use Rattle.batch_trace.specs.Kept.{IsKept};
ghost use Rattle.batch_trace.specs.declared.kept_trace.TheConstants.{PLACES};
ghost use Rattle.batch_trace.specs.Traced.{text_in, packet_parts, decisions, decided_lines, told_trace};

use crate::standing::push_standing;
use crate::telling::{Room, tell_packet};
use crate::traced_batch::TracedBatch;
use batch_walk::WalkText;
use capture_walk::Ends;
use pcap_io::Packets;
use std::alloc::Global;
use tc_base::{Hook, NoMemory, Put, Sink};
use walk_trace::Tally;

/// How many bytes are gathered at least before they are written, but for the last.
const PAGE: usize = 65_536;

// Puts a text behind what isn't written yet, and writes all of that where it is a page.
fn put_text<O: Sink>(page: &mut Vec<u8>, text: &[u8], out: &mut O) -> Result<(), Put>
    ensures all { OnOk result ((put : List ℕ) × Appended (O.written out.old) (O.written out.new) put
        × (put ++ page.new.items ≡ page.old.items ++ text.now)) }
    ensures up_to { AppendsUpTo (O.written out.old) (O.written out.new) (page.old.items ++ text.now) }
    ensures later { O.faults out.old ≤ O.faults out.new }
    ensures cause { IsErrOf result Put.Failed → Rose (O.faults out.old) (O.faults out.new) }
{
    page.extend_from_slice(text)?;
    if page.len() >= PAGE {
        out.write_all(page)?;
        page.clear();
    }
    Ok(())
}

// Writes what is told of each packet, with its line, page by page, and counts what decided.
fn write_packets<O: Sink>(
    alloc: Global,
    room: &mut Room,
    tally: &mut Tally,
    traced: &TracedBatch,
    hook: Hook,
    packets: &Packets,
    ends: &Ends,
    out: &mut O,
) -> Result<(), Put>
    requires each { length ends.now ≡ length packets.now }
    requires few { length packets.now ≤ PACKETS_MAX }
    requires short { AreShort packets.now }
    requires none { (edit : ℕ) → count_at tally.old edit ≡ 0 }
    requires kept { Each (IsKept traced.now hook) room.old.kept.items }
    requires many { PLACES ≤ length room.old.kept.items }
    ensures all { OnOk result (Appended (O.written out.old) (O.written out.new)
        (text_in (packet_parts traced.now hook 1 packets.now ends.now))) }
    ensures up_to { AppendsUpTo (O.written out.old) (O.written out.new)
        (text_in (packet_parts traced.now hook 1 packets.now ends.now)) }
    ensures tally { OnOk result ((edit : ℕ) → count_at tally.new edit
        ≡ times_in (decisions traced.now hook packets.now) edit) }
    ensures later { O.faults out.old ≤ O.faults out.new }
    ensures cause { IsErrOf result Put.Failed → Rose (O.faults out.old) (O.faults out.new) }
{
    let mut page = Vec::new(alloc);
    let mut place = 0;
    for end in ends.iter() {
        let packet = packets.get(place);
        place += 1;
        tell_packet(room, tally, traced, hook, packet.bytes, place as u64, end)?;
        put_text(&mut page, &room.text, out)?;
    }
    out.write_all(&page)
}

// The lines of the filters that stand at the end, by what was counted from nothing.
fn decided_text(
    alloc: Global,
    tally: &Tally,
    traced: &TracedBatch,
    hook: Hook,
) -> Result<Vec<u8>, NoMemory>
    ensures { IfOk result (λ text. (packets : _) → ((edit : ℕ) → count_at tally.now edit
        ≡ times_in (decisions traced.now hook packets) edit)
        → text.items ≡ joined (decided_lines traced.now hook packets)) }
{
    let mut text = Vec::new(alloc);
    let mut room = Vec::new(alloc);
    push_standing(&mut text, &mut room, traced.brought(), hook, tally)?;
    Ok(text)
}

/// Writes the trace of packets, of at most 262,144 bytes each, at a hook of the state that a batch leaves, by
/// the text of their walk: its refused line, what is told of each packet with its line, how often each filter
/// that stands at the hook decided, and its closing lines.
///
/// `Failed`: the sink could not write. `NoMemory`: memory was refused.
pub fn write_trace<O: Sink>(
    alloc: Global,
    text: &WalkText,
    traced: &TracedBatch,
    hook: Hook,
    packets: &Packets,
    out: &mut O,
) -> Result<(), Put>
    requires each { length text.now.ends ≡ length packets.now }
    requires few { length packets.now ≤ PACKETS_MAX }
    requires short { AreShort packets.now }
    ensures all { OnOk result (Appended (O.written out.old) (O.written out.new)
        (told_trace text.now traced.now hook packets.now)) }
    ensures up_to { AppendsUpTo (O.written out.old) (O.written out.new)
        (told_trace text.now traced.now hook packets.now) }
    ensures later { O.faults out.old ≤ O.faults out.new }
    ensures cause { IsErrOf result Put.Failed → Rose (O.faults out.old) (O.faults out.new) }
{
    let mut room = Room::new(alloc)?;
    let mut tally = Tally::new(alloc);
    out.write_all(&text.stop)?;
    write_packets(
        alloc, &mut room, &mut tally, traced, hook, packets, &text.ends, out,
    )?;
    let decided = decided_text(alloc, &tally, traced, hook)?;
    out.write_all(&decided)?;
    out.write_all(&text.closing)
}
