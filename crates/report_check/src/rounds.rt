//! The rounds of a report.
ghost use Rattle.std.specs.Prelude.{◌≡◌, ◌+◌, ◌-◌, ◌≤◌, true, false, length, take, slice_get, Some, Ok};
ghost use Rattle.job_lines.specs.declared.job.Round.{Round};
ghost use Rattle.lawful_runs.specs.Given.{IsLoaded, capture_count, captures_named, packet_count};
ghost use Rattle.report_check.specs.OfEvents.Cursors.{IsWithin, IsStuck};
ghost use Rattle.report_check.specs.Rounds.{ToldRound, AreWalked};
ghost use Rattle.report_check.specs.Between.{IsBetween, IsAtCapture};

use crate::events::{Cursor, check_events};
use crate::lines::take_numbered;
use crate::packets::check_packets;
use crate::walkers::Walkers;
use journal_replay::Replay;
use lawful_runs::LoadedJob;
use std::alloc::Global;
use tc_base::{NoMemory, Point};

/// How far a report has been judged: up to the cursor, with all that is kept of the lines before it.
#[derive(Drop)]
pub struct Progress {
    pub(crate) cursor: Cursor,
    pub(crate) replay: Replay,
    pub(crate) walkers: Walkers,
    /// How many captures the rounds had.
    pub(crate) captures: usize,
}

// Goes behind the packets of a round, where it has a capture. The rounds before it have so many.
fn check_capture(
    job: &LoadedJob,
    report: &[u8],
    number: u32,
    cursor: &mut Cursor,
    replay: &Replay,
    walkers: &mut Walkers,
    captures: usize,
    least: Point,
) -> Result<bool, NoMemory>
    requires loaded { IsLoaded job.now }
    requires round { (1 ≤ number) × (number ≤ length job.now.job.rounds) }
    requires cursor { IsWithin report.now cursor.old }
    requires captures { captures ≡ captures_named (take (number - 1) job.now.job.rounds) }
    requires packets { walkers.old.passed + walkers.old.dropped
        ≡ packet_count (take captures job.now.captures) }
    requires told { (told : ToldRound)
        × IsAtCapture told job.now report.now number cursor.old replay.now walkers.old least }
    ensures within { IsWithin report.now cursor.new }
    ensures onward { result ≡ Ok true → cursor.old.line ≤ cursor.new.line }
    ensures taken { result ≡ Ok true → (told : ToldRound)
        → IsAtCapture told job.now report.now number cursor.old replay.now walkers.old least
        → AreWalked told report.now cursor.new walkers.new (length told.round.arrivals) }
    ensures stuck { result ≡ Ok false → (told : ToldRound)
        → IsAtCapture told job.now report.now number cursor.old replay.now walkers.old least
        → IsStuck told.loaded report.now cursor.new }
{
    match &job.job.rounds.as_slice()[number as usize - 1].capture {
        None => Ok(true),
        Some(name) => {
            let packets = &job.captures.as_slice()[captures].packets;
            check_packets(report, cursor, replay, walkers, least, name.hook, packets)
        }
    }
}

// How many captures a round has.
fn captures_in(job: &LoadedJob, number: u32) -> usize
    requires round { (1 ≤ number) × (number ≤ length job.now.job.rounds) }
    ensures { (round : Round) → slice_get job.now.job.rounds (number - 1) ≡ Some round
        → result ≡ capture_count round.capture }
{
    match &job.job.rounds.as_slice()[number as usize - 1].capture {
        None => 0,
        Some(_) => 1,
    }
}

/// Goes behind the lines of a round: `true`, where each line may come, and `false`, where the report is
/// stuck.
pub(crate) fn check_round(
    alloc: Global,
    job: &LoadedJob,
    report: &[u8],
    number: u32,
    progress: &mut Progress,
    text: &mut Vec<u8>,
) -> Result<bool, NoMemory>
    requires loaded { IsLoaded job.now }
    requires round { (1 ≤ number) × (number ≤ length job.now.job.rounds) }
    requires cursor { IsWithin report.now progress.old.cursor }
    requires between { IsBetween job.now report.now (number - 1) progress.old }
    ensures within { IsWithin report.now progress.new.cursor }
    ensures through { result ≡ Ok true → IsBetween job.now report.now number progress.new }
    ensures stuck { result ≡ Ok false → IsStuck job.now report.now progress.new.cursor }
{
    let Progress {
        cursor,
        replay,
        walkers,
        captures,
    } = progress;
    if !take_numbered(report, cursor, text, "round ", u64::from(number))? {
        return Ok(false);
    }
    let least = replay.past.point();
    if !check_events(alloc, job, report, number, cursor, replay)? {
        return Ok(false);
    }
    if !check_capture(
        job, report, number, cursor, replay, walkers, *captures, least,
    )? {
        return Ok(false);
    }
    *captures += captures_in(job, number);
    take_numbered(report, cursor, text, "end round ", u64::from(number))
}

/// Goes behind the lines of all rounds.
pub(crate) fn check_rounds(
    alloc: Global,
    job: &LoadedJob,
    report: &[u8],
    progress: &mut Progress,
    text: &mut Vec<u8>,
) -> Result<bool, NoMemory>
    requires loaded { IsLoaded job.now }
    requires cursor { IsWithin report.now progress.old.cursor }
    requires between { IsBetween job.now report.now 0 progress.old }
    ensures within { IsWithin report.now progress.new.cursor }
    ensures through { result ≡ Ok true
        → IsBetween job.now report.now (length job.now.job.rounds) progress.new }
    ensures stuck { result ≡ Ok false → IsStuck job.now report.now progress.new.cursor }
{
    let rounds = job.job.rounds.as_slice().len() as u32;
    for number in 1..rounds + 1 {
        if !check_round(alloc, job, report, number, progress, text)? {
            return Ok(false);
        }
    }
    Ok(true)
}
