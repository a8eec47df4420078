//! What stood in a place over time.
//!
//! Whoever judges a report asks what stood at a point of the journal: a state that is long past. To keep a
//! state for each point would cost a copy for each edit. So each place keeps its own past (`Past`): what was
//! put there, with the point from which it stood. What stood at a point is the last of these up to it, found
//! by halving, and mostly a place has one or two. So is the next of them behind a point (`after`): until then
//! the same stands.
//!
//! `SlotPasts` has the pasts of all filters behind one hash index. A filter is named by the serial of its
//! mask and by its key, since two filters of a state never have both; and what stands there is whatever is
//! kept of a filter, such as the list of its actions' serials, or nothing. A look-up is one hash and one
//! halving, whatever the journal's length. `SerialPasts` has the pasts of things that are named by a serial.
//!
//! # Who may call what
//!
//! Plain data, used by one thread at a time. `put` takes memory, and where that is refused nothing changed
//! of a name or a place. Changes of a place are put by rising point.
//!
//! Not promised: anything of how long a look-up takes where keys were chosen to collide, since the index has
//! no seed.
#![tactic(auto)]

mod index;
mod named;
mod past;
mod pasts;
mod serials;

pub use named::NamedPast;
pub use past::{Change, Past};
pub use pasts::SlotPasts;
pub use serials::SerialPasts;
