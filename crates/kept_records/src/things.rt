//! Things that were decoded before, kept by a number and a stamp.
//!
//! Who decodes a thing out of words pays for each word. Where a stamp says that nothing changed since, the
//! thing that was decoded last is as good. `KeptThings` has room for so many: a number has one place, which
//! it shares with every 256th number, and a place keeps what was put there last.
//!
//! That a kept thing is still right is not known here: the caller says what a stamp means, and reads a thing
//! again where none is kept. Anything may be lost at any time, for another number that comes to its place.
//!
//! # Who may call what
//!
//! Plain data with room of its own, used by one thread at a time. Only `with_room` takes memory.
//!
//! Not promised: that what was put is found again.

mod kept;
mod things;

pub use kept::Kept;
pub use things::KeptThings;
