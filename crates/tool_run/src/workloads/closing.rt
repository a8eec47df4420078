//! The lines of a run's report behind its rounds.
ghost use Rattle.std.specs.Prelude.{◌≡◌, ◌+◌, ◌<◌, ◌^◌, ◌++◌, IfOk, OnOk};
ghost use Rattle.walk_texts.specs.Texts.{joined};
ghost use Rattle.run_report.specs.Counts.{summary_of};
ghost use Rattle.run_report.specs.Reports.{counter_lines};
ghost use Rattle.tool_run.specs.OfQuietJobs.Ends.{closing_of};

use batch_run::MadeAction;
use run_report::{CounterLine, RunRecord};
use std::alloc::{AllocError, Global};
use walk_ends::Count;
use walk_texts::{Summary, push_counter, push_summary, push_text};

fn push_counters(out: &mut Vec<u8>, counters: &[CounterLine]) -> Result<(), AllocError>
    ensures { OnOk result (out.new.items ≡ out.old.items ++ joined (counter_lines counters.now)) }
{
    for counter in counters {
        let made = MadeAction {
            serial: counter.serial,
            kind: counter.kind,
            index: counter.index,
        };
        let count = Count {
            packets: counter.packets,
            bytes: counter.bytes,
        };
        push_counter(out, &made, &count)?;
    }
    Ok(())
}

/// The counters of a run, its summary, `end`.
pub(crate) fn closing_text(
    alloc: Global,
    run: &RunRecord,
    summary: &Summary,
) -> Result<Vec<u8>, AllocError>
    requires summary { summary.now ≡ summary_of run.now.rounds }
    requires few { summary.now.passed + summary.now.dropped < 2 ^ 64 }
    ensures { IfOk result (λ text. text.items ≡ closing_of run.now) }
{
    let mut out = Vec::new(alloc);
    push_counters(&mut out, run.counters.as_slice())?;
    push_summary(&mut out, summary)?;
    push_text(&mut out, "end\n")?;
    Ok(out)
}
