//! Writing the trace of a report.
ghost use Rattle.std.specs.Prelude.{◌≡◌, ◌≤◌, ◌<◌, ◌+◌, ◌*◌, ◌^◌, [], ◌∷◌, List, ℕ, length, drop};
ghost use Rattle.std.specs.Prelude.{OnOk, IfOk, IfSome, IsErrOf};
ghost use Rattle.std.specs.Option.{IfNone};
ghost use Rattle.tc_base.specs.Outside.{Rose, Appended, AppendsUpTo};
ghost use Rattle.pcap_io.specs.Captures.{AreShort};
ghost use Rattle.filter_state.specs.declared.edit.Edit.{Edit};
ghost use Rattle.filter_state.specs.Sound.{Each};
ghost use Rattle.walk_rules.specs.declared.limits.TheConstants.{VISITS_MAX};
ghost use Rattle.walk_texts.specs.Texts.{joined};
ghost use Rattle.batch_trace.specs.Passed.{edits_of};
ghost use Rattle.walk_trace.specs.Tallies.{count_at, times_in};
ghost use Rattle.lawful_runs.specs.Given.{IsLoaded, rounds_from, given_arrivals, capture_count};
ghost use Rattle.report_check.specs.Replayed.{IsReplayOf};
ghost use Rattle.report_check.specs.Walks.{StandsIn};
ghost use Rattle.report_trace.specs.Traced.{IsTraceOf, decided_by, decisions, decided_with};
ghost use Rattle.report_trace.specs.Writing.{IsBehind, PacketsLeft, ArePackets, arrivals_of};
ghost use Rattle.report_trace.specs.Rounds.{RoundsLeft, AreRoundsLeft};

use crate::known::Known;
use crate::lines::{cut_first, put, put_plain};
use crate::telling::{Room, write_packet};
use batch_trace::{Brought, Origins, push_decided};
use job_lines::CaptureName;
use lawful_runs::LoadedJob;
use pcap_io::{Capture, Packets};
use report_check::{Replay, Walker};
use std::alloc::{AllocError, Global};
use tc_base::{Hook, NoMemory, Put, Sink};
use walk_trace::Tally;

/// Writes what is told of each packet of a capture, with its line, and what stands before it. What follows is
/// left.
fn write_packets<'a, O: Sink>(
    alloc: Global,
    room: &mut Room,
    walkers: &mut Vec<Walker>,
    tally: &mut Tally,
    known: &Known<'_>,
    left: &'a [u8],
    hook: Hook,
    packets: &Packets,
    out: &mut O,
) -> Result<&'a [u8], Put>
    requires short { AreShort packets.now }
    requires room { (edit : ℕ) → count_at tally.old edit + length packets.now * VISITS_MAX < 2 ^ 64 }
    requires stand { Each (StandsIn (edits_of known.now)) walkers.old.items }
    requires packets { (all : PacketsLeft) × ArePackets all known.now (O.written out.old) left.now 1 hook
        packets.now (length walkers.old.items) }
    ensures behind { IfOk result (λ behind. (all : PacketsLeft)
        → ArePackets all known.now (O.written out.old) left.now 1 hook packets.now (length walkers.old.items)
        → IsBehind all.first (O.written out.new) all.whole behind.now all.lines all.rest) }
    ensures up_to { (all : PacketsLeft) → ArePackets all known.now (O.written out.old) left.now 1 hook
        packets.now (length walkers.old.items) → AppendsUpTo all.first (O.written out.new) all.whole }
    ensures tally { OnOk result ((all : PacketsLeft) → ArePackets all known.now (O.written out.old) left.now 1
        hook packets.now (length walkers.old.items) → (edit : ℕ) → count_at tally.new edit
        ≡ count_at tally.old edit
        + times_in (decided_by known.now (arrivals_of hook packets.now) all.outcomes) edit) }
    ensures few { OnOk result ((edit : ℕ) → count_at tally.new edit
        ≤ count_at tally.old edit + length packets.now * VISITS_MAX) }
    ensures stand { OnOk result (Each (StandsIn (edits_of known.now)) walkers.new.items) }
    ensures many { length walkers.new.items ≡ length walkers.old.items }
    ensures later { O.faults out.old ≤ O.faults out.new }
    ensures cause { IsErrOf result Put.Failed → Rose (O.faults out.old) (O.faults out.new) }
{
    let mut behind = left;
    for place in 0..packets.len() {
        let bytes = packets.get(place).bytes;
        let number = place as u64 + 1;
        behind = write_packet(
            alloc, room, walkers, tally, known, behind, number, hook, bytes, out,
        )?;
    }
    Ok(behind)
}

// The capture of a round that names one, with its hook, and those of later rounds.
fn next_capture<'a>(
    name: &Option<CaptureName>,
    captures: &'a [Capture],
) -> Option<(Hook, &'a Capture, &'a [Capture])>
    ensures some { IfSome result (λ next. (given_arrivals name.now captures.now
        ≡ arrivals_of next.0 next.1.now.packets)
        × (drop (capture_count name.now) captures.now ≡ next.2.now)
        × (captures.now ≡ next.1.now ∷ next.2.now)) }
    ensures none { IfNone result ((given_arrivals name.now captures.now ≡ [])
        × (drop (capture_count name.now) captures.now ≡ captures.now)) }
{
    match (name, captures) {
        (Some(name), [capture, later @ ..]) => Some((name.hook, capture, later)),
        _ => None,
    }
}

/// Writes the rounds of a report, but for plain lines at their end, which are left with what follows them.
fn write_rounds<'a, O: Sink>(
    alloc: Global,
    walkers: &mut Vec<Walker>,
    tally: &mut Tally,
    known: &Known<'_>,
    job: &LoadedJob,
    left: &'a [u8],
    out: &mut O,
) -> Result<&'a [u8], Put>
    requires loaded { IsLoaded job.now }
    requires none { (edit : ℕ) → count_at tally.old edit ≡ 0 }
    requires stand { Each (StandsIn (edits_of known.now)) walkers.old.items }
    requires rounds { (all : RoundsLeft) × AreRoundsLeft all known.now (O.written out.old) left.now 1 0
        job.now.job.rounds job.now.captures (length walkers.old.items) }
    ensures behind { IfOk result (λ behind. (all : RoundsLeft) → AreRoundsLeft all known.now (O.written out.old)
        left.now 1 0 job.now.job.rounds job.now.captures (length walkers.old.items)
        → IsBehind all.first (O.written out.new) all.whole behind.now all.lines all.rest) }
    ensures up_to { (all : RoundsLeft) → AreRoundsLeft all known.now (O.written out.old) left.now 1 0
        job.now.job.rounds job.now.captures (length walkers.old.items)
        → AppendsUpTo all.first (O.written out.new) all.whole }
    ensures tally { OnOk result ((all : RoundsLeft) → AreRoundsLeft all known.now (O.written out.old)
        left.now 1 0 job.now.job.rounds job.now.captures (length walkers.old.items) → (edit : ℕ)
        → count_at tally.new edit ≡ times_in (decisions known.now
        (rounds_from job.now.job.rounds all.files job.now.captures) all.its) edit) }
    ensures later { O.faults out.old ≤ O.faults out.new }
    ensures cause { IsErrOf result Put.Failed → Rose (O.faults out.old) (O.faults out.new) }
{
    let mut room = Room::new(alloc)?;
    let mut behind = left;
    let mut captures = job.captures.as_slice();
    let rounds = job.job.rounds.as_slice();
    for round in rounds {
        let Some((hook, capture, later)) = next_capture(&round.capture, captures) else {
            continue;
        };
        behind = write_packets(
            alloc,
            &mut room,
            walkers,
            tally,
            known,
            behind,
            hook,
            &capture.packets,
            out,
        )?;
        captures = later;
    }
    Ok(behind)
}

// The lines of all filters that were brought, with how often each decided.
fn decided_text(alloc: Global, tally: &Tally, brought: &[Brought]) -> Result<Vec<u8>, AllocError>
    ensures { IfOk result (λ text. text.items ≡ joined (decided_with (count_at tally.now) brought.now)) }
{
    let mut text = Vec::new(alloc);
    let mut room = Vec::new(alloc);
    for filter in brought {
        push_decided(&mut text, &mut room, tally.count(filter.by.edit), filter)?;
    }
    Ok(text)
}

// So many workers, whose lists stand before the first edit.
fn first_walkers(alloc: Global, workers: u32) -> Result<Vec<Walker>, NoMemory>
    ensures many { IfOk result (λ walkers. length walkers.items ≡ workers) }
    ensures stand { IfOk result (λ walkers. (journal : List Edit) → Each (StandsIn journal) walkers.items) }
{
    let mut walkers = Vec::new(alloc);
    for _number in 0..workers {
        walkers.push(Walker::new(alloc))?;
    }
    Ok(walkers)
}

/// Writes the trace of a lawful report of a job, by the journal of the run that it reports.
///
/// `Failed`: the sink could not write. `NoMemory`: memory was refused.
pub fn trace_report<O: Sink>(
    alloc: Global,
    job: &LoadedJob,
    report: &[u8],
    replay: &Replay,
    out: &mut O,
) -> Result<(), Put>
    requires loaded { IsLoaded job.now }
    requires lawful { IsReplayOf job.now report.now replay.now }
    ensures all { OnOk result ((text : List ℕ) → IsTraceOf job.now report.now text
        → Appended (O.written out.old) (O.written out.new) text) }
    ensures up_to { (text : List ℕ) → IsTraceOf job.now report.now text
        → AppendsUpTo (O.written out.old) (O.written out.new) text }
    ensures later { O.faults out.old ≤ O.faults out.new }
    ensures cause { IsErrOf result Put.Failed → Rose (O.faults out.old) (O.faults out.new) }
{
    let origins = Origins::of(alloc, &replay.journal, &replay.places)?;
    let known = Known::new(replay, &origins);
    let mut walkers = first_walkers(alloc, job.job.workers)?;
    let mut tally = Tally::new(alloc);
    let (title, left) = cut_first(report);
    out.write_all(title)?;
    let behind = write_rounds(alloc, &mut walkers, &mut tally, &known, job, left, out)?;
    let closing = put_plain(behind, out)?;
    let decided = decided_text(alloc, &tally, known.brought())?;
    put(&decided, out)?;
    put(closing, out)
}
