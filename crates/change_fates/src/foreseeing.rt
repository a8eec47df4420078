//! A change, foreseen.
ghost use Rattle.std.specs.Prelude.{◌≡◌, ◌≤◌, ◌+◌, ◌++◌, [], List, ℕ, Option, length, IfOk, OnOk, IsErrOf};
ghost use Rattle.tc_base.specs.Outside.{Appended, AppendsUpTo, PutCounts, Rose};
ghost use Rattle.pcap_io.specs.Captures.{AreShort};
ghost use Rattle.batch_run.specs.declared.limit.TheConstants.{COMMANDS_MAX};
ghost use Rattle.batch_run.specs.Commands.{commands_in};
ghost use Rattle.walk_ends.specs.declared.limits.TheConstants.{PACKETS_MAX};
ghost use Rattle.change_lines.specs.Passed.{Changed, IsChanged};
ghost use Rattle.change_lines.specs.Lines.{refused_in};
ghost use Rattle.change_fates.specs.Texts.{change_line};
ghost use Rattle.change_fates.specs.Told.{kinds_in, counts_of, closing_text, told_text};
ghost use Rattle.change_fates.specs.Foreseen.{foreseen_text, not_hitless};
ghost use Rattle.change_fates.specs.Paging.{IsOnPage};

use crate::counts::KindCounts;
use crate::fates::Room;
use crate::known::Known;
use crate::lines::{push_change, push_summary};
use crate::packets::write_packets;
use change_lines::{AppliedChange, apply_change};
use filter_origins::Origins;
use pcap_io::Packets;
use std::alloc::Global;
use tc_base::{Hook, NoMemory, Put, Sink};
use walk_texts::push_text;

/// What came of a change that was foreseen.
#[derive(Clone, Copy, Debug, PartialEq, Eq)]
pub struct Foreseen {
    /// How many lines of the batch and of the change were refused.
    pub refused: u32,
    /// How many packets can meet what neither the state before the change nor that after it would do to them,
    /// or aren't known not to.
    pub not_hitless: u32,
}

// The text before the lines of the change.
fn opening_text(
    alloc: Global,
    applied: &AppliedChange,
    known: &Known<'_>,
) -> Result<Vec<u8>, NoMemory>
    ensures { IfOk result (λ text. text.items
        ≡ applied.now.stop.items ++ change_line known.now.before (length known.now.entries)) }
{
    let mut text = Vec::new(alloc);
    text.extend_from_slice(&applied.stop)?;
    push_change(&mut text, known.before(), known.after())?;
    Ok(text)
}

// The text behind the packets.
fn closing_text(alloc: Global, packets: u64, counts: KindCounts) -> Result<Vec<u8>, NoMemory>
    ensures { IfOk result (λ text. text.items ≡ closing_text packets counts) }
{
    let mut text = Vec::new(alloc);
    push_summary(&mut text, packets, counts)?;
    push_text(&mut text, "end\n")?;
    Ok(text)
}

// Writes a piece of a text, with nothing on the page.
fn put<O: Sink>(piece: &[u8], out: &mut O) -> Result<(), Put>
    ensures on { OnOk result ((first : Option (List ℕ)) (whole rest : List ℕ)
        → IsOnPage first (O.written out.old) whole [] (piece.now ++ rest)
        → IsOnPage first (O.written out.new) whole [] rest) }
    ensures up_to { (first : Option (List ℕ)) (whole rest : List ℕ)
        → IsOnPage first (O.written out.old) whole [] (piece.now ++ rest)
        → AppendsUpTo first (O.written out.new) whole }
    ensures counts { PutCounts (O.faults out.old) (O.faults out.new) result }
{
    out.write_all(piece)
}

// Writes what is left of a text: what is on the page, and the last piece.
fn put_last<O: Sink>(room: &mut Room, piece: &[u8], out: &mut O) -> Result<(), Put>
    ensures all { OnOk result ((first : Option (List ℕ)) (whole : List ℕ)
        → IsOnPage first (O.written out.old) whole room.old.page piece.now
        → Appended first (O.written out.new) whole) }
    ensures up_to { (first : Option (List ℕ)) (whole : List ℕ)
        → IsOnPage first (O.written out.old) whole room.old.page piece.now
        → AppendsUpTo first (O.written out.new) whole }
    ensures later { O.faults out.old ≤ O.faults out.new }
    ensures cause { IsErrOf result Put.Failed → Rose (O.faults out.old) (O.faults out.new) }
{
    room.page.push_text(piece)?;
    out.write_all(room.page.text())
}

// Writes what is known of a change and of packets that come meanwhile, and tells how many are of each kind.
fn write_told<O: Sink>(
    alloc: Global,
    applied: &AppliedChange,
    known: &Known<'_>,
    packets: &Packets,
    out: &mut O,
) -> Result<KindCounts, Put>
    requires few { length packets.now ≤ PACKETS_MAX }
    requires short { AreShort packets.now }
    ensures all { OnOk result (Appended (O.written out.old) (O.written out.new)
        (told_text known.now applied.now.stop.items applied.now.lines.items packets.now)) }
    ensures up_to { AppendsUpTo (O.written out.old) (O.written out.new)
        (told_text known.now applied.now.stop.items applied.now.lines.items packets.now) }
    ensures counts { IfOk result (λ counts. counts ≡ counts_of (kinds_in known.now packets.now)) }
    ensures later { O.faults out.old ≤ O.faults out.new }
    ensures cause { IsErrOf result Put.Failed → Rose (O.faults out.old) (O.faults out.new) }
{
    let mut room = Room::new(alloc)?;
    let opening = opening_text(alloc, applied, known)?;
    put(&opening, out)?;
    put(&applied.lines, out)?;
    let counts = write_packets(alloc, &mut room, known, packets, out)?;
    let closing = closing_text(alloc, packets.len() as u64, counts)?;
    put_last(&mut room, &closing, out)?;
    Ok(counts)
}

/// Applies a batch up to its first refused line, and follows a change behind it, which goes on behind a refused
/// line where it is forced; both have at most 262,144 commands together. Writes what became of their lines, and
/// for each packet, of at most 262,144 bytes, that comes at a hook meanwhile each fate that it can have. Tells
/// how many lines were refused, and how many packets aren't hitless.
///
/// However it ends, a front of the text was written. `Failed`: the sink could not write. `NoMemory`: memory
/// was refused.
pub fn foresee<O: Sink>(
    alloc: Global,
    batch: &[&[u8]],
    change: &[&[u8]],
    force: bool,
    hook: Hook,
    packets: &Packets,
    out: &mut O,
) -> Result<Foreseen, Put>
    requires lines { length (commands_in batch.now) + length (commands_in change.now) ≤ COMMANDS_MAX }
    requires few { length packets.now ≤ PACKETS_MAX }
    requires short { AreShort packets.now }
    ensures all { OnOk result ((changed : Changed)
        → IsChanged (commands_in batch.now) (commands_in change.now) force changed
        → Appended (O.written out.old) (O.written out.new) (foreseen_text changed hook packets.now)) }
    ensures up_to { (changed : Changed)
        → IsChanged (commands_in batch.now) (commands_in change.now) force changed
        → AppendsUpTo (O.written out.old) (O.written out.new) (foreseen_text changed hook packets.now) }
    ensures refused { IfOk result (λ foreseen. (changed : Changed)
        → IsChanged (commands_in batch.now) (commands_in change.now) force changed
        → foreseen.refused ≡ refused_in changed) }
    ensures hitless { IfOk result (λ foreseen. (changed : Changed)
        → IsChanged (commands_in batch.now) (commands_in change.now) force changed
        → foreseen.not_hitless ≡ not_hitless changed hook packets.now) }
    ensures later { O.faults out.old ≤ O.faults out.new }
    ensures cause { IsErrOf result Put.Failed → Rose (O.faults out.old) (O.faults out.new) }
{
    let applied = apply_change(alloc, batch, change, force, hook)?;
    let origins = Origins::of(alloc, &applied.replay.journal, &applied.replay.places)?;
    let known = Known::new(&applied, &origins);
    let counts = write_told(alloc, &applied, &known, packets, out)?;
    Ok(Foreseen {
        refused: applied.replay.refused as u32,
        not_hitless: counts.shaken(),
    })
}
