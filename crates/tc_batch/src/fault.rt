//! Why bytes are no line.

use std::alloc::AllocError;
use tc_base::NoMemory;

/// Why a line gives no edit.
#[derive(Clone, Copy, Debug, PartialEq, Eq)]
pub enum LineFault {
    /// The first bad word, counted from 1. A line that is cut short is bad one past its last word.
    Syntax { word: u32 },
    NoMemory(NoMemory),
}

impl From<AllocError> for LineFault {
    ghost use Rattle.std.specs.Prelude.{◌≡◌};
    ghost use Rattle.tc_batch.specs.declared.fault.LineFault.TheVariants as faults;
    ghost use Rattle.tc_base.specs.Memory.{no_memory};

    ghost from_gives = { λ _ e. e ≡ faults.NoMemory no_memory };

    fn from(refused: AllocError) -> Self {
        LineFault::NoMemory(NoMemory::from(refused))
    }
}

impl From<NoMemory> for LineFault {
    ghost use Rattle.std.specs.Prelude.{◌≡◌};
    ghost use Rattle.tc_batch.specs.declared.fault.LineFault.TheVariants as faults;

    ghost from_gives = { λ memory e. e ≡ faults.NoMemory memory };

    fn from(memory: NoMemory) -> Self {
        LineFault::NoMemory(memory)
    }
}
