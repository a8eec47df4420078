//! What became of a control's turn.

use desk_needs::Pool;
use tc_base::NoMemory;

/// What became of a control's turn.
#[derive(Clone, Copy, Debug, PartialEq, Eq)]
pub enum Turned {
    /// Its next line was met: accepted, refused, or found to have no meaning.
    Applied,
    /// It has no line left.
    Over,
    /// The edit of its next line can't be made for now: the pool, the first that is short, has fewer free
    /// than the edit needs, also after tidying, and the reader was inside, with that pin. The line is still
    /// the next one.
    Held {
        pool: Pool,
        reader: u32,
        pin: u64,
        needed: u32,
        free: u32,
    },
    /// Memory was refused. The line is still the next one.
    NoMemory(NoMemory),
}
