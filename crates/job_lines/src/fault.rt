//! Why a file is no job.

use std::alloc::AllocError;
use tc_base::NoMemory;

/// What is wrong at a line.
#[derive(Clone, Copy, Debug, PartialEq, Eq)]
pub enum JobKind {
    /// No job goes on with this line, or lines are missing behind the last one.
    JobSyntax,
    /// The line begins a round past the 1,024th.
    TooManyRounds,
}

/// Why a file's bytes gave no job.
#[derive(Clone, Copy, Debug, PartialEq, Eq)]
pub enum JobFault {
    /// The first line at which the file fails to be a job, counted from 1; where lines are missing, the
    /// number of its lines plus 1.
    Form { line: u64, kind: JobKind },
    /// Memory was refused.
    NoMemory(NoMemory),
}

impl From<AllocError> for JobFault {
    ghost use Rattle.std.specs.Prelude.{◌≡◌};
    ghost use Rattle.job_lines.specs.declared.fault.JobFault.TheVariants as faults;
    ghost use Rattle.tc_base.specs.Memory.{no_memory};

    ghost from_gives = { λ _ e. e ≡ faults.NoMemory no_memory };

    fn from(refused: AllocError) -> Self {
        JobFault::NoMemory(NoMemory::from(refused))
    }
}

impl From<NoMemory> for JobFault {
    ghost use Rattle.std.specs.Prelude.{◌≡◌};
    ghost use Rattle.job_lines.specs.declared.fault.JobFault.TheVariants as faults;

    ghost from_gives = { λ memory e. e ≡ faults.NoMemory memory };

    fn from(memory: NoMemory) -> Self {
        JobFault::NoMemory(memory)
    }
}
