//! What keeps a test from its end.

use crate::editor::Counts;
use filter_state::Refusal;
use pin_store::Scan;
use shared_hook::ApplyFault;
use std::alloc::{AllocError, AllocFailed};
use tc_base::NoMemory;
use tc_batch::LineFault;

/// What keeps a test from its end. None of it comes where a test passes.
#[derive(Clone, Copy, Debug, PartialEq, Eq)]
pub(crate) enum Trouble {
    NoMemory,
    /// All readers were taken.
    NoReader,
    /// A line of the test is none of a batch.
    Line(LineFault),
    /// A number of a desk or of lists is near its end.
    TooFar,
    /// Plain lists refuse an edit that plain lists accepted before.
    Replay(Refusal),
    /// A desk answers an edit otherwise than it has to: it isn't accepted, for this reason, or it is.
    Answer(Option<ApplyFault>),
    /// A reader is in the way of a tidying.
    Pinned(Scan),
    /// A desk counts otherwise than it has to.
    Counts(Counts),
    /// A walk hasn't come to its end.
    NotEnded,
}

impl From<NoMemory> for Trouble {
    fn from(_: NoMemory) -> Self {
        Trouble::NoMemory
    }
}

impl From<AllocError> for Trouble {
    fn from(_: AllocError) -> Self {
        Trouble::NoMemory
    }
}

impl<T: Drop> From<AllocFailed<T>> for Trouble {
    fn from(_: AllocFailed<T>) -> Self {
        Trouble::NoMemory
    }
}

impl From<LineFault> for Trouble {
    fn from(fault: LineFault) -> Self {
        Trouble::Line(fault)
    }
}

impl From<Refusal> for Trouble {
    fn from(refusal: Refusal) -> Self {
        Trouble::Replay(refusal)
    }
}
