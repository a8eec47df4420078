//! The report of a run.
ghost use Rattle.std.specs.Prelude.{◌≡◌, ◌+◌, ◌<◌, ◌≤◌, ◌^◌, ◌++◌, length, IfOk, OnOk, IsErrOf};
ghost use Rattle.tc_base.specs.Outside.{Appended, AppendsUpTo, Rose};
ghost use Rattle.walk_texts.specs.Texts.{joined};
ghost use Rattle.run_report.specs.Counts.{accepted_count, events_in, packets_in};
ghost use Rattle.run_report.specs.Reports.{round_lines, rounds_lines, counter_lines, report_text};
ghost use Rattle.run_report.specs.Pages.{IsPaged};

use crate::counters::CounterLine;
use crate::event_lines::write_events;
use crate::packet_lines::write_packets;
use crate::page::turn;
use crate::pieces::push_numbered_line;
use crate::record::RunRecord;
use crate::rounds::RoundRecord;
use crate::summing::summary_of;
use std::alloc::Global;
use tc_base::{Put, Sink};
use tc_report::MadeAction;
use walk_ends::Count;
use walk_texts::{push_counter, push_summary, push_text};

// Writes the lines of a round before which so many edits were accepted, and answers how many were accepted
// then.
fn write_round<O: Sink>(
    alloc: Global,
    page: &mut Vec<u8>,
    out: &mut O,
    number: u64,
    before: u32,
    round: &RoundRecord,
) -> Result<u32, Put>
    requires { before + length round.now.events < 2 ^ 32 }
    ensures text { OnOk result (IsPaged (O.written out.old) (O.written out.new)
        (page.old.items ++ joined (round_lines number before round.now)) page.new.items) }
    ensures edits { IfOk result (λ edits. edits ≡ before + accepted_count round.now.events) }
    ensures up_to { AppendsUpTo (O.written out.old) (O.written out.new)
        (page.old.items ++ joined (round_lines number before round.now)) }
    ensures later { O.faults out.old ≤ O.faults out.new }
    ensures cause { IsErrOf result Put.Failed → Rose (O.faults out.old) (O.faults out.new) }
{
    push_numbered_line(page, "round ", number)?;
    let edits = write_events(page, out, before, round.events.as_slice())?;
    write_packets(alloc, page, out, &round.outcomes)?;
    push_numbered_line(page, "end round ", number)?;
    Ok(edits)
}

fn write_rounds<O: Sink>(
    alloc: Global,
    page: &mut Vec<u8>,
    out: &mut O,
    rounds: &[RoundRecord],
) -> Result<(), Put>
    requires { events_in rounds.now < 2 ^ 32 }
    ensures text { OnOk result (IsPaged (O.written out.old) (O.written out.new)
        (page.old.items ++ joined (rounds_lines rounds.now)) page.new.items) }
    ensures up_to { AppendsUpTo (O.written out.old) (O.written out.new)
        (page.old.items ++ joined (rounds_lines rounds.now)) }
    ensures later { O.faults out.old ≤ O.faults out.new }
    ensures cause { IsErrOf result Put.Failed → Rose (O.faults out.old) (O.faults out.new) }
{
    let mut edits = 0;
    for (index, round) in rounds.iter().enumerate() {
        edits = write_round(alloc, page, out, index as u64 + 1, edits, round)?;
    }
    Ok(())
}

fn write_counters<O: Sink>(
    page: &mut Vec<u8>,
    out: &mut O,
    counters: &[CounterLine],
) -> Result<(), Put>
    ensures text { OnOk result (IsPaged (O.written out.old) (O.written out.new)
        (page.old.items ++ joined (counter_lines counters.now)) page.new.items) }
    ensures up_to { AppendsUpTo (O.written out.old) (O.written out.new)
        (page.old.items ++ joined (counter_lines counters.now)) }
    ensures later { O.faults out.old ≤ O.faults out.new }
    ensures cause { IsErrOf result Put.Failed → Rose (O.faults out.old) (O.faults out.new) }
{
    for counter in counters {
        turn(page, out)?;
        let made = MadeAction {
            serial: counter.serial,
            kind: counter.kind,
            index: counter.index,
        };
        let count = Count {
            packets: counter.packets,
            bytes: counter.bytes,
        };
        push_counter(page, &made, &count)?;
    }
    Ok(())
}

/// Writes the report of a run: a line that names the form, the lines of each round, a line for each counter,
/// the summary, and `end`. The lines are written page by page.
///
/// There are fewer than 2^32 events and fewer than 2^64 packets in all rounds together, as a run has at most
/// 262,144 command lines and 1,048,576 packets.
///
/// However it ends, a front of the report was written. `Failed`: the sink could not write. `NoMemory`: memory
/// was refused for the page.
pub fn write_report<O: Sink>(alloc: Global, run: &RunRecord, out: &mut O) -> Result<(), Put>
    requires events { events_in run.now.rounds < 2 ^ 32 }
    requires packets { packets_in run.now.rounds < 2 ^ 64 }
    ensures all { OnOk result (Appended (O.written out.old) (O.written out.new) (report_text run.now)) }
    ensures up_to { AppendsUpTo (O.written out.old) (O.written out.new) (report_text run.now) }
    ensures cause { IsErrOf result Put.Failed → Rose (O.faults out.old) (O.faults out.new) }
{
    let mut page = Vec::new(alloc);
    push_text(&mut page, "clsact report 1\n")?;
    write_rounds(alloc, &mut page, out, run.rounds.as_slice())?;
    write_counters(&mut page, out, run.counters.as_slice())?;
    push_summary(&mut page, &summary_of(run.rounds.as_slice()))?;
    push_text(&mut page, "end\n")?;
    out.write_all(&page)
}
