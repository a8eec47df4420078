//! What keeps a test from its end.

use std::alloc::{AllocError, AllocFailed};
use tc_base::{NoMemory, Put};

/// What keeps a test from its end. None of it comes where a test passes.
#[derive(Clone, Copy, Debug, PartialEq, Eq)]
pub(crate) enum Trouble {
    NoMemory,
    /// The job of the test can't be loaded.
    NotLoaded,
    /// Threads didn't come to a step of the order before all others stood still.
    Late,
    /// The twin can't read a line, or refuses one of the base.
    NotRead,
    /// The twin has no walk with these points.
    NoWalk,
    /// The report isn't that of a lawful run, or a counter isn't what the walks come to.
    Unlawful,
    /// A line wasn't met once, as the twin meets it.
    OtherLines,
    /// A line was held where nothing held it, or wasn't held.
    OtherHolds,
    /// A visit has a point of a line that was not begun before it was over.
    TooEarly,
    /// The twin's walk at the points that are told is another one.
    OtherWalk,
    /// The walk isn't that of all lines that were met before each visit.
    Stale,
}

impl From<NoMemory> for Trouble {
    fn from(_: NoMemory) -> Self {
        Trouble::NoMemory
    }
}

// A sink in memory that is told no fault fails for want of memory alone.
impl From<Put> for Trouble {
    fn from(_: Put) -> Self {
        Trouble::NoMemory
    }
}

impl From<AllocError> for Trouble {
    fn from(_: AllocError) -> Self {
        Trouble::NoMemory
    }
}

impl<T: Drop> From<AllocFailed<T>> for Trouble {
    fn from(_: AllocFailed<T>) -> Self {
        Trouble::NoMemory
    }
}
