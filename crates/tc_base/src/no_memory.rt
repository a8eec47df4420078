ghost use Rattle.std.specs.Prelude.{◌≤◌, ◌<◌, OnOk, OnErr};

use std::alloc::{AllocError, AllocFailed};

/// Memory was refused.
///
/// Its field is private, so that no other crate makes one up: there it comes from what an allocator
/// answered, or from `check_room`.
#[derive(Clone, Copy, Debug, PartialEq, Eq)]
pub struct NoMemory {
    refused: (),
}

impl NoMemory {
    /// For what this crate has of the system's own answers, where no allocator's error comes with them.
    pub(crate) fn told() -> NoMemory {
        NoMemory { refused: () }
    }
}

impl From<AllocError> for NoMemory {
    fn from(_: AllocError) -> Self {
        NoMemory::told()
    }
}

impl<T: Drop> From<AllocFailed<T>> for NoMemory {
    fn from(_: AllocFailed<T>) -> Self {
        NoMemory::told()
    }
}

/// Refuses a length above the most that its holder can number, as an allocator refuses what it hasn't got.
///
/// The holders of this program number places with 32 bits. What is longer has no room in them, however much
/// memory there is.
pub fn check_room(length: usize, most: usize) -> Result<(), NoMemory>
    ensures ok { OnOk result (length ≤ most) }
    ensures err { OnErr result (most < length) }
{
    if length <= most {
        Ok(())
    } else {
        Err(NoMemory::told())
    }
}
