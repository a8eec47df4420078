//! The lines of a round's events.
ghost use Rattle.std.specs.Prelude.{◌≡◌, ◌≤◌, ◌+◌, ℕ, true, false, List, length, Ok, IfSome};
ghost use Rattle.std.specs.Option.{IfNone};
ghost use Rattle.run_report.specs.declared.rounds.RoundRecord.{RoundRecord};
ghost use Rattle.lawful_runs.specs.declared.loaded.LoadedJob.{LoadedJob as LoadedValue};
ghost use Rattle.lawful_runs.specs.Given.{GivenRound, IsLoaded};
ghost use Rattle.round_terms.specs.Files.{first_file as first_before, files_of};
ghost use Rattle.round_terms.specs.Turns.{AreWithin};
ghost use Rattle.journal_replay.specs.declared.replay.Replay.{Replay as AReplay};
ghost use Rattle.report_check.specs.OfEvents.Cursors.{IsWithin, IsStuck};
ghost use Rattle.report_check.specs.OfEvents.Lines.{IsNamed, NamesNone, SomeLeft, NoLines};
ghost use Rattle.report_check.specs.OfEvents.Told.{HasBegun, GoOn, IsTurn, AreOver};

use crate::events::control::control_of;
use crate::events::cursor::Cursor;
use edit_lines::LinePlace;
use journal_replay::Replay;
use round_terms::{Event, LoadedJob, NextLine, Place, first_file, goes_on, next_line};
use run_report::push_event_line;
use std::alloc::Global;
use tc_base::NoMemory;
use tool_words::Reason;

/// A control, and its next command.
#[derive(Clone, Copy)]
pub struct NamedLine<'a> {
    pub control: u32,
    pub next: NextLine<'a>,
}

// The control that the next line names, with its next command. None, where no line is left, or the line names
// no control with a command left. The job names `first` batches before the round.
fn named_line<'a>(
    job: &'a LoadedJob,
    first: usize,
    number: u32,
    report: &[u8],
    cursor: Cursor,
    places: &[Place],
) -> Option<NamedLine<'a>>
    requires loaded { IsLoaded job.now }
    requires round { (1 ≤ number) × (number ≤ length job.now.job.rounds) }
    requires first { first ≡ first_before job.now number }
    requires cursor { IsWithin report.now cursor }
    requires places { AreWithin (files_of job.now number) places.now }
    ensures some { IfSome result (IsNamed job.now report.now number cursor places.now) }
    ensures none { IfNone result (NamesNone job.now report.now number cursor places.now) }
{
    let control = match cursor.next_line(report) {
        Some(line) => control_of(line)?,
        None => return None,
    };
    if control == 0 {
        return None;
    }
    let next = next_line(job, first, number, control, places)?;
    Some(NamedLine { control, next })
}

// Whether a control has a command left.
fn some_left(job: &LoadedJob, first: usize, number: u32, places: &[Place]) -> bool
    requires loaded { IsLoaded job.now }
    requires round { (1 ≤ number) × (number ≤ length job.now.job.rounds) }
    requires first { first ≡ first_before job.now number }
    requires places { AreWithin (files_of job.now number) places.now }
    ensures left { result ≡ true → SomeLeft job.now number places.now }
    ensures none { result ≡ false → NoLines job.now number places.now }
{
    for control in 1..job.job.controls + 1 {
        if next_line(job, first, number, control, places).is_some() {
            return true;
        }
    }
    false
}

// Meets the command that the next line names, and goes behind the line where it tells what the command came
// to.
fn take_event(
    alloc: Global,
    report: &[u8],
    cursor: &mut Cursor,
    replay: &mut Replay,
    places: &mut [Place],
    named: NamedLine<'_>,
) -> Result<bool, NoMemory>
    requires cursor { IsWithin report.now cursor.old }
    requires turn { (loaded : LoadedValue) × (number : ℕ) × (its : List RoundRecord) × (round : GivenRound)
        × (first : AReplay) × IsTurn loaded report.now number its round first cursor.old replay.old places.old
        named }
    ensures within { IsWithin report.now cursor.new }
    ensures further { result ≡ Ok true → cursor.new.line ≡ cursor.old.line + 1 }
    ensures taken { result ≡ Ok true → (loaded : LoadedValue) (number : ℕ) (its : List RoundRecord)
        (round : GivenRound) (first : AReplay)
        → IsTurn loaded report.now number its round first cursor.old replay.old places.old named.entry
        → GoOn loaded report.now number its round first cursor.new replay.new places.new }
    ensures stuck { result ≡ Ok false → (loaded : LoadedValue) (number : ℕ) (its : List RoundRecord)
        (round : GivenRound) (first : AReplay)
        → IsTurn loaded report.now number its round first cursor.old replay.old places.old named.entry
        → IsStuck loaded report.now cursor.new }
{
    let before = replay.past.point();
    let place = LinePlace {
        control: named.control,
        line: named.next.line,
    };
    let kind = replay.meet(alloc, named.next.text, place)?;
    let goes = goes_on(named.next.force, &kind);
    let event = Event {
        control: named.control,
        line: named.next.line,
        kind,
    };
    let mut text = Vec::new(alloc);
    push_event_line(&mut text, before, &event)?;
    places[named.control as usize - 1] = Place {
        at: named.next.next,
        line: named.next.line,
        over: !goes,
    };
    Ok(cursor.demand(report, text.as_slice(), Reason::Result))
}

/// Goes behind the lines of a round's events, up to the last command of each control: `true`, where each line
/// may come, and `false`, where the report is stuck.
///
/// `NoMemory`: memory was refused, and nothing is promised of the replay.
pub fn check_events(
    alloc: Global,
    job: &LoadedJob,
    report: &[u8],
    number: u32,
    cursor: &mut Cursor,
    replay: &mut Replay,
) -> Result<bool, NoMemory>
    requires loaded { IsLoaded job.now }
    requires cursor { IsWithin report.now cursor.old }
    requires begun { (its : List RoundRecord) × (round : GivenRound)
        × HasBegun job.now report.now number its round cursor.old replay.old }
    ensures within { IsWithin report.now cursor.new }
    ensures over { result ≡ Ok true → (its : List RoundRecord) (round : GivenRound)
        → HasBegun job.now report.now number its round cursor.old replay.old
        → AreOver job.now report.now its round replay.old cursor.new replay.new }
    ensures stuck { result ≡ Ok false → IsStuck job.now report.now cursor.new }
{
    let first = first_file(job, number);
    let mut starts = vec![in alloc; Place::start(); job.job.controls as usize]?;
    let places = starts.as_mut_slice();
    while let Some(next) = named_line(job, first, number, report, *cursor, places) {
        if !take_event(alloc, report, cursor, replay, places, next)? {
            return Ok(false);
        }
    }
    if some_left(job, first, number, places) {
        cursor.refuse(report, Reason::Event);
        return Ok(false);
    }
    Ok(true)
}
