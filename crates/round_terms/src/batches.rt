//! The batches of a round among the files of a job.
ghost use Rattle.std.specs.Prelude.{◌≡◌, ◌≤◌, ℕ, length, slice_get, Some, IfSome, IfNone};
ghost use Rattle.lawful_runs.specs.Given.{IsLoaded};
ghost use Rattle.round_terms.specs.Files.{RoundFile, first_file, files_of};

use lawful_runs::LoadedJob;

/// A control's batch in a round.
#[derive(Clone, Copy, Debug)]
pub struct RoundBatch<'a> {
    /// Whether it goes on after a line that isn't accepted.
    pub force: bool,
    /// What its file holds.
    pub bytes: &'a [u8],
}

/// How many batches a job names before a round. Rounds are counted from 1.
pub fn first_file(job: &LoadedJob, round: u32) -> usize
    requires loaded { IsLoaded job.now }
    requires round { (1 ≤ round) × (round ≤ length job.now.job.rounds) }
    ensures { result ≡ first_file job.now round }
{
    let rounds = job.job.rounds.as_slice();
    let mut first = 0;
    for at in 0..round as usize - 1 {
        first += rounds[at].batches.as_slice().len();
    }
    first
}

/// The batch of a control in a round, before which the job names `first` batches. `None` exactly where the
/// control has none.
pub fn batch_of(job: &LoadedJob, first: usize, round: u32, control: u32) -> Option<RoundBatch<'_>>
    requires loaded { IsLoaded job.now }
    requires round { (1 ≤ round) × (round ≤ length job.now.job.rounds) }
    requires first { first ≡ first_file job.now round }
    ensures some { IfSome result (λ batch. (at : ℕ) × (slice_get (files_of job.now round) at
        ≡ Some (record { control = control; force = batch.force; bytes = batch.bytes.now }))) }
    ensures none { IfNone result ((at : ℕ) (file : RoundFile)
        → slice_get (files_of job.now round) at ≡ Some file → file.control ≡ control → ⊥) }
{
    let named = job.job.rounds.as_slice()[round as usize - 1]
        .batches
        .as_slice();
    for at in 0..named.len() {
        if named[at].control == control {
            return Some(RoundBatch {
                force: named[at].force,
                bytes: job.batches.as_slice()[first + at].as_slice(),
            });
        }
    }
    None
}
