//! What an edit needs is there wherever nothing waits.
//!
//! What a state has in use (`live_of`) and what an edit needs of it (`needed_of`) never come
//! to more than a pool has. So an edit can be held only while something that left has not come back: with
//! nothing left, each accepted edit finds what it needs. That follows from the bounds of a sound state alone,
//! of filters, of live actions and of actions in a line.

mod laws;

pub use laws::{lines_make_few, pools_suffice};
