//! Edits that add a filter.
//!
//! An edit is looked at first, and done later. `prepare_addition` looks for every refusal in the order of the
//! flat state's step, then takes all the memory that the filter will want: room in its mask, or a mask or
//! table of its own, room for the actions that it makes, and its own lists. It leaves the state as it was.
//! `add` puts the filter, on lists that are still as they were (`IsReady` in
//! `specs/OfAdding/Additions.antt`), and takes no memory. An `Addition` may be dropped, and then nothing has
//! changed. `add_at_once` does both in one call, for whoever asks nothing in between.
//!
//! One thread changes the lists at a time, by `&mut`.
mod addition;
mod arrival;
mod at_once;
mod doing;
mod looking;
mod numbers;
mod planning;
mod seating;

pub use addition::Addition;
pub use arrival::{Arrival, Seat};
pub use at_once::add_at_once;
pub use doing::add;
pub use planning::prepare_addition;
pub use seating::room_for_one;
