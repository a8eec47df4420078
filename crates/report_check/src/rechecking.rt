//! The judge of a report.
ghost use Rattle.std.specs.Prelude.{◌≡◌, ◌+◌, ◌∷◌, [], ℕ, List, IfOk, Ok, codes};
ghost use Rattle.lawful_runs.specs.declared.loaded.LoadedJob.{LoadedJob as LoadedValue};
ghost use Rattle.filter_state.specs.declared.edit.Edit.{Edit};
ghost use Rattle.run_report.specs.declared.record.RunRecord.{RunRecord};
ghost use Rattle.run_report.specs.Reports.{report_text};
ghost use Rattle.lawful_runs.specs.Given.{IsLoaded};
ghost use Rattle.lawful_runs.specs.Lawful.{IsRunWith};
ghost use Rattle.report_laws.specs.Stands.{closing};
ghost use Rattle.tool_words.specs.declared.reason.Reason.{Reason as ReasonValue};
ghost use Rattle.report_check.specs.OfEvents.Cursors.{IsWithin, IsAt, IsStuck};
ghost use Rattle.report_check.specs.Checks.{IsCheckOf, IsUntitled};
ghost use Rattle.report_check.specs.Between.{IsBetween};
ghost use Rattle.report_check.specs.Replayed.{IsReplayOf, IsReplayedOf};

use crate::check::Check;
use crate::closing::{check_closing, take_left};
use crate::events::Cursor;
use crate::rounds::{Progress, check_rounds};
use crate::walkers::Walkers;
use journal_replay::Replay;
use lawful_runs::LoadedJob;
use std::alloc::Global;
use tc_base::NoMemory;
use tool_words::Reason;

// The answer where the report is stuck.
fn stuck_at(report: &[u8], cursor: Cursor) -> Check
    requires { IsWithin report.now cursor }
    ensures check { (loaded : LoadedValue) → IsLoaded loaded → IsStuck loaded report.now cursor
        → IsCheckOf loaded report.now result }
    ensures line { result ≡ Check.Unlawful (cursor.line + 1) cursor.reason }
{
    // For the proof: a report has fewer bytes than a number of 64 bits counts.
    let _bytes = report.len();
    Check::Unlawful {
        line: cursor.line + 1,
        reason: cursor.reason,
    }
}

// The answer behind the last line of a lawful run: whether nothing follows it.
fn ended_at(report: &[u8], cursor: Cursor) -> Check
    requires { IsWithin report.now cursor }
    ensures check { (loaded : LoadedValue) (run : RunRecord) (journal : List Edit) → IsLoaded loaded
        → IsAt loaded report.now cursor (closing run journal []) → IsCheckOf loaded report.now result }
    ensures run { result ≡ Check.Lawful → (loaded : LoadedValue) (run : RunRecord) (journal : List Edit)
        → IsAt loaded report.now cursor (closing run journal [])
        → IsRunWith loaded run journal × (report.now ≡ report_text run) }
{
    match cursor.next_line(report) {
        None => Check::Lawful,
        Some(_) => {
            let mut cursor = cursor;
            cursor.refuse(report, Reason::Behind);
            stuck_at(report, cursor)
        }
    }
}

// The answer before the last line.
fn closed_at(report: &[u8], cursor: Cursor) -> Check
    requires { IsWithin report.now cursor }
    ensures check { (loaded : LoadedValue) (run : RunRecord) (journal : List Edit) → IsLoaded loaded
        → IsAt loaded report.now cursor (closing run journal (codes "end\n" ∷ []))
        → IsCheckOf loaded report.now result }
    ensures run { result ≡ Check.Lawful → (loaded : LoadedValue) (run : RunRecord) (journal : List Edit)
        → IsAt loaded report.now cursor (closing run journal (codes "end\n" ∷ []))
        → IsRunWith loaded run journal × (report.now ≡ report_text run) }
{
    let mut cursor = cursor;
    if !take_left(report, &mut cursor, b"end\n", Reason::End) {
        return stuck_at(report, cursor);
    }
    ended_at(report, cursor)
}

// Goes behind all lines of a report but its title, and answers. Behind a lawful report the replay is that of
// its run.
fn judge(
    alloc: Global,
    job: &LoadedJob,
    report: &[u8],
    progress: &mut Progress,
    text: &mut Vec<u8>,
) -> Result<Check, NoMemory>
    requires loaded { IsLoaded job.now }
    requires cursor { IsWithin report.now progress.old.cursor }
    requires between { IsBetween job.now report.now 0 progress.old }
    ensures check { IfOk result (IsCheckOf job.now report.now) }
    ensures lawful { result ≡ Ok Check.Lawful → IsReplayOf job.now report.now progress.new.replay }
{
    if !check_rounds(alloc, job, report, progress, text)? {
        return Ok(stuck_at(report, progress.cursor));
    }
    if !check_closing(report, progress, text)? {
        return Ok(stuck_at(report, progress.cursor));
    }
    Ok(closed_at(report, progress.cursor))
}

/// What bytes are, as the report of a job.
#[derive(Drop)]
pub enum Replayed {
    /// The report of a lawful run: its journal, and what that leads to.
    Lawful(Replay),
    /// No lawful report goes on with this line, counted from 1. It is the first such line. One more than the
    /// number of lines says that the report is cut.
    Unlawful { line: u64, reason: Reason },
}

// What a judged report is, with the replay behind it.
fn handed_on(check: Check, replay: Replay) -> Replayed
    ensures replayed { (loaded : LoadedValue) (report : List ℕ) → IsCheckOf loaded report check
        → (check ≡ Check.Lawful → IsReplayOf loaded report replay) → IsReplayedOf loaded report result }
{
    match check {
        Check::Lawful => Replayed::Lawful(replay),
        Check::Unlawful { line, reason } => Replayed::Unlawful { line, reason },
    }
}

/// What bytes are as the report of a job: that of a lawful run, with the run's journal, or else the first
/// line with which no lawful report goes on, and why.
///
/// Of a report that doesn't begin with its title no memory is wanted. `NoMemory`: memory was refused.
pub fn replay(alloc: Global, job: &LoadedJob, report: &[u8]) -> Result<Replayed, NoMemory>
    requires { IsLoaded job.now }
    ensures replayed { IfOk result (IsReplayedOf job.now report.now) }
    ensures untitled { IsUntitled report.now
        → (reason : ReasonValue) × (result ≡ Ok (Replayed.Unlawful 1 reason)) }
{
    let mut cursor = Cursor::start();
    if !cursor.demand(report, b"clsact report 1\n", Reason::Title) {
        return Ok(Replayed::Unlawful {
            line: 1,
            reason: cursor.reason,
        });
    }
    let walkers = Walkers::new(alloc, job.job.workers)?;
    let mut progress = Progress {
        cursor,
        replay: Replay::new(alloc),
        walkers,
        captures: 0,
    };
    let mut text = Vec::new(alloc);
    let check = judge(alloc, job, report, &mut progress, &mut text)?;
    Ok(handed_on(check, progress.replay))
}

// What is answered of a report that is no more than that.
fn answer_of(replayed: &Replayed) -> Check
    ensures check { (loaded : LoadedValue) (report : List ℕ) → IsReplayedOf loaded report replayed.now
        → IsCheckOf loaded report result }
    ensures told { (line : ℕ) (reason : ReasonValue) → replayed.now ≡ Replayed.Unlawful line reason
        → result ≡ Check.Unlawful line reason }
{
    match replayed {
        Replayed::Lawful(_) => Check::Lawful,
        Replayed::Unlawful { line, reason } => Check::Unlawful {
            line: *line,
            reason: *reason,
        },
    }
}

/// Whether bytes are the report of a lawful run of a job, or else the first line with which no lawful report
/// goes on, and why.
///
/// Of a report that doesn't begin with its title no memory is wanted. `NoMemory`: memory was refused.
pub fn recheck(alloc: Global, job: &LoadedJob, report: &[u8]) -> Result<Check, NoMemory>
    requires { IsLoaded job.now }
    ensures check { IfOk result (IsCheckOf job.now report.now) }
    ensures untitled { IsUntitled report.now
        → (reason : ReasonValue) × (result ≡ Ok (Check.Unlawful 1 reason)) }
{
    Ok(answer_of(&replay(alloc, job, report)?))
}
