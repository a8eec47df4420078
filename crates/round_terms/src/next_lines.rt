//! The next line of a control.
ghost use Rattle.std.specs.Prelude.{◌≡◌, ◌≤◌, length, IfSome, IfNone};
ghost use Rattle.lawful_runs.specs.Given.{IsLoaded};
ghost use Rattle.round_terms.specs.Files.{first_file, files_of};
ghost use Rattle.round_terms.specs.Turns.{AreWithin, HasNoLine, IsLineFor};

use crate::batches::batch_of;
use crate::commands::next_command;
use crate::place::Place;
use lawful_runs::LoadedJob;

/// The next line that a control has to meet.
#[derive(Clone, Copy, Debug)]
pub struct NextLine<'a> {
    pub text: &'a [u8],
    /// Its number in its batch, from 1.
    pub line: u64,
    /// The byte at which the line behind it begins.
    pub next: usize,
    /// Whether the batch goes on where it isn't accepted.
    pub force: bool,
}

/// The next line of a control of a round, by the places of all controls, the first control's first; the job
/// names `first` batches before the round. `None` exactly where it has none left: it has no batch, or its
/// batch has stopped, or is at its end.
pub fn next_line<'a>(
    job: &'a LoadedJob,
    first: usize,
    round: u32,
    control: u32,
    places: &[Place],
) -> Option<NextLine<'a>>
    requires loaded { IsLoaded job.now }
    requires round { (1 ≤ round) × (round ≤ length job.now.job.rounds) }
    requires first { first ≡ first_file job.now round }
    requires control { 1 ≤ control }
    requires within { AreWithin (files_of job.now round) places.now }
    ensures some { IfSome result (λ n. IsLineFor (files_of job.now round) places.now control n.text.now n.line
        n.next n.force) }
    ensures none { IfNone result (HasNoLine (files_of job.now round) places.now control) }
{
    let batch = batch_of(job, first, round, control)?;
    let place = places[control as usize - 1];
    if place.over {
        return None;
    }
    let found = next_command(batch.bytes, place.at, place.line)?;
    Some(NextLine {
        text: found.text,
        line: found.line,
        next: found.next,
        force: batch.force,
    })
}
