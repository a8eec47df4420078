//! The texts that the lines of a walk and the report of a run share.
//!
//! How a packet ended, how often an action ran, and what it all came to are told in the same words by `walk`
//! and by a run's report (`specs/Texts.antt`). Each call that begins with `push` puts such a text behind what
//! a caller's buffer holds, so that a million lines are made in one buffer as they are written.
//!
//! One thread calls this, and it keeps nothing between calls. Not promised: that memory suffices, and what is
//! in the buffer where it doesn't.
#![tactic(auto)]

mod counters;
mod packets;
mod pieces;
mod summary;

pub use counters::push_counter;
pub use packets::push_end;
pub use pieces::{push_count, push_text};
pub use summary::{Summary, push_summary};
