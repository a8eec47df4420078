//! Why an edit was not applied.

use desk_needs::Pool;
use filter_state::Refusal;

/// Why an edit was not applied. It then stands nowhere: lists and journal are as they were.
#[derive(Clone, Copy, Debug, PartialEq, Eq)]
pub enum ApplyFault {
    /// The plain step refuses the edit, for this reason; or memory was refused.
    Refused(Refusal),
    /// The pool, the first that is short, has fewer free than the edit needs, also after tidying: something
    /// had left that can't be given again. The reader was inside then: its pin was loaded twice in the call,
    /// and was the same odd number.
    Held {
        pool: Pool,
        reader: u32,
        pin: u64,
        needed: u32,
        free: u32,
    },
}
