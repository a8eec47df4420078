//! A job as far as its file was read.
ghost use Rattle.std.specs.Prelude.{◌≡◌, [], ◌∷◌, ◌++◌, IfOk};
ghost use Rattle.job_lines.specs.States.{State, state_of, begun_in, job_at, whole_job};
ghost use Rattle.job_lines.specs.Steps.{round_of, with_round};

use crate::job::{BatchName, CaptureName, Job, Round};
use crate::rounds::{BatchNames, Rounds};
use std::alloc::{AllocError, Global};

/// Which lines may follow.
#[derive(Clone, Copy)]
pub enum Stage {
    /// The header.
    Begun,
    /// The number of workers.
    Headed,
    /// The number of controls.
    Staffed,
    /// A round, or the end.
    Ready,
    /// A batch of a control above this one, a capture, the next round, or the end.
    Open(u32),
    /// None.
    Ended,
}

/// A job as far as it was read. What the file has not come to yet means nothing.
#[derive(Drop)]
pub struct Draft {
    pub stage: Stage,
    pub workers: u32,
    pub controls: u32,
    /// The rounds that are whole.
    pub rounds: Vec<Round>,
    /// The batches of the round that is open.
    pub batches: Vec<BatchName>,
}

impl Draft {
    pub(crate) fn new(alloc: Global) -> Self
        ensures { state_of result ≡ State.Begun }
    {
        Draft {
            stage: Stage::Begun,
            workers: 0,
            controls: 0,
            rounds: Vec::new(alloc),
            batches: Vec::new(alloc),
        }
    }

    // How many rounds were begun.
    pub(crate) fn begun(&self) -> usize
        ensures { result ≡ begun_in (state_of self.now) }
    {
        match self.stage {
            Stage::Begun | Stage::Headed | Stage::Staffed => 0,
            Stage::Ready | Stage::Ended => self.rounds.len(),
            Stage::Open(_) => self.rounds.len() + 1,
        }
    }

    // Adds the round that is open to the whole ones, with its capture.
    pub(crate) fn end_round(
        &mut self,
        alloc: Global,
        capture: Option<CaptureName>,
    ) -> Result<(), AllocError>
        ensures { IfOk result (λ _. whole_job self.new
            ≡ with_round (whole_job self.old) (round_of self.old.batches.items capture)) }
    {
        let batches = std::mem::replace(&mut self.batches, Vec::new(alloc));
        self.rounds.push(Round {
            batches: BatchNames::from_vec(batches),
            capture,
        })?;
        Ok(())
    }

    // The job of lines that end here. `None` where lines are missing.
    pub(crate) fn job(self) -> Option<Job>
        ensures { result ≡ job_at (state_of self) }
    {
        match self.stage {
            Stage::Ended => Some(Job {
                workers: self.workers,
                controls: self.controls,
                rounds: Rounds::from_vec(self.rounds),
            }),
            _ => None,
        }
    }
}
