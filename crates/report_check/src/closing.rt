//! The lines behind the rounds of a report.
ghost use Rattle.std.specs.Prelude.{◌≡◌, ◌+◌, ◌≤◌, ◌<◌, ◌^◌, ◌++◌, ◌∷◌, [], List, ℕ, true, false, codes};
ghost use Rattle.std.specs.Prelude.{length, Ok};
ghost use Rattle.filter_state.specs.declared.edit.Edit.{Edit};
ghost use Rattle.walk_texts.specs.Texts.{counter_line, summary_line};
ghost use Rattle.run_report.specs.declared.record.RunRecord.{RunRecord};
ghost use Rattle.lawful_runs.specs.declared.loaded.LoadedJob.{LoadedJob};
ghost use Rattle.lawful_runs.specs.Given.{IsLoaded};
ghost use Rattle.report_laws.specs.Stands.{closing};
ghost use Rattle.report_check.specs.OfEvents.Cursors.{IsWithin, IsAt, IsStuck};
ghost use Rattle.journal_replay.specs.Placed.{places_in};
ghost use Rattle.report_check.specs.Between.{IsBetween};
ghost use Rattle.report_check.specs.Counting.{counted_lines};
ghost use Rattle.report_check.specs.Reasons.{due_reason};

use crate::events::Cursor;
use crate::rounds::Progress;
use batch_run::MadeAction;
use run_counts::RunCounts;
use tc_base::NoMemory;
use tool_words::Reason;
use walk_texts::{Summary, push_counter, push_summary};

/// Goes behind the next line where it is this one, the first of those that are left.
pub(crate) fn take_left(report: &[u8], cursor: &mut Cursor, text: &[u8], reason: Reason) -> bool
    requires { IsWithin report.now cursor.old }
    ensures within { IsWithin report.now cursor.new }
    ensures taken { result ≡ true → (loaded : LoadedJob) (run : RunRecord) (journal : List Edit)
        (left : List (List ℕ)) → IsAt loaded report.now cursor.old (closing run journal (text.now ∷ left))
        → IsAt loaded report.now cursor.new (closing run journal left) }
    ensures stuck { result ≡ false → (loaded : LoadedJob) (run : RunRecord) (journal : List Edit)
        (left : List (List ℕ)) → reason ≡ due_reason (text.now ∷ left)
        → IsAt loaded report.now cursor.old (closing run journal (text.now ∷ left))
        → IsStuck loaded report.now cursor.new }
{
    cursor.demand(report, text, reason)
}

/// Goes behind the lines of these actions' counters, before two lines at least.
pub(crate) fn take_counters(
    report: &[u8],
    cursor: &mut Cursor,
    text: &mut Vec<u8>,
    made: &[MadeAction],
    counts: &RunCounts,
) -> Result<bool, NoMemory>
    requires { IsWithin report.now cursor.old }
    ensures within { IsWithin report.now cursor.new }
    ensures taken { result ≡ Ok true → (loaded : LoadedJob) (run : RunRecord) (journal : List Edit)
        (left : List (List ℕ))
        → IsAt loaded report.now cursor.old (closing run journal (counted_lines counts.now made.now ++ left))
        → IsAt loaded report.now cursor.new (closing run journal left) }
    ensures stuck { result ≡ Ok false → (loaded : LoadedJob) (run : RunRecord) (journal : List Edit)
        (left : List (List ℕ)) → 2 ≤ length left
        → IsAt loaded report.now cursor.old (closing run journal (counted_lines counts.now made.now ++ left))
        → IsStuck loaded report.now cursor.new }
{
    for action in made {
        text.clear();
        push_counter(text, action, &counts.of(action.serial))?;
        if !take_left(report, cursor, text.as_slice(), Reason::Counter) {
            return Ok(false);
        }
    }
    Ok(true)
}

/// Goes behind the summary's line.
pub(crate) fn take_summary(
    report: &[u8],
    cursor: &mut Cursor,
    text: &mut Vec<u8>,
    summary: &Summary,
) -> Result<bool, NoMemory>
    requires cursor { IsWithin report.now cursor.old }
    requires few { summary.now.passed + summary.now.dropped < 2 ^ 64 }
    ensures within { IsWithin report.now cursor.new }
    ensures taken { result ≡ Ok true → (loaded : LoadedJob) (run : RunRecord) (journal : List Edit)
        (left : List (List ℕ))
        → IsAt loaded report.now cursor.old (closing run journal (summary_line summary.now ∷ left))
        → IsAt loaded report.now cursor.new (closing run journal left) }
    ensures stuck { result ≡ Ok false → (loaded : LoadedJob) (run : RunRecord) (journal : List Edit)
        (last : List ℕ)
        → IsAt loaded report.now cursor.old (closing run journal (summary_line summary.now ∷ last ∷ []))
        → IsStuck loaded report.now cursor.new }
{
    text.clear();
    push_summary(text, summary)?;
    Ok(take_left(report, cursor, text.as_slice(), Reason::Summary))
}

/// Goes behind the lines that follow the rounds, but for the last one.
pub(crate) fn check_closing(
    report: &[u8],
    progress: &mut Progress,
    text: &mut Vec<u8>,
) -> Result<bool, NoMemory>
    requires cursor { IsWithin report.now progress.old.cursor }
    requires between { (loaded : LoadedJob) × IsLoaded loaded
        × IsBetween loaded report.now (length loaded.job.rounds) progress.old }
    ensures within { IsWithin report.now progress.new.cursor }
    ensures replay { progress.new.replay ≡ progress.old.replay }
    ensures through { result ≡ Ok true → (loaded : LoadedJob)
        → IsBetween loaded report.now (length loaded.job.rounds) progress.old
        → (run : RunRecord) × (progress.old.replay.places.items ≡ places_in run.rounds)
        × IsAt loaded report.now progress.new.cursor
        (closing run progress.old.replay.journal.items (codes "end\n" ∷ [])) }
    ensures stuck { result ≡ Ok false → (loaded : LoadedJob)
        → IsBetween loaded report.now (length loaded.job.rounds) progress.old
        → IsStuck loaded report.now progress.new.cursor }
{
    let Progress {
        cursor,
        replay,
        walkers,
        ..
    } = progress;
    if !take_counters(
        report,
        cursor,
        text,
        replay.made.as_slice(),
        &walkers.counts,
    )? {
        return Ok(false);
    }
    let summary = Summary {
        edits: replay.journal.len() as u64,
        refused: replay.refused,
        passed: walkers.passed,
        dropped: walkers.dropped,
    };
    take_summary(report, cursor, text, &summary)
}
