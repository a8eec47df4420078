//! Why a batch stops before its end.

use filter_state::Refusal;

/// The line at which a batch stops, counted from 1, and why.
#[derive(Clone, Copy, Debug, PartialEq, Eq)]
pub enum Stop {
    /// The line's edit is refused. `NoMemory` is none of these.
    Refused { line: u64, refusal: Refusal },
    /// The line isn't one of the grammar: its first bad word, counted from 1.
    Syntax { line: u64, word: u32 },
}
