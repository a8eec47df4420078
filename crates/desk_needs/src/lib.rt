//! What a hook's store holds of each of its pools, and what an edit needs of them.
//!
//! A hook's store has room for so many blocks, rows, slots of masks and of actions, and two places for the
//! tables of each hook. What of these is in use follows from the plain state alone (`live_of`,
//! `specs/Live.antt`), and what an edit takes from the state and the edit (`needed_of`, `specs/Needs.antt`).
//! So whoever rehearses an edit can tell from a state whether it could be held, without a look at any store.
//!
//! Laws say how that is found out before an edit is done: `edit_needs` what each kind of edit needs by what
//! is looked up before it, `live_counts` how what is in use goes on with it, and `room` that all of it is
//! there wherever nothing waits.
//!
//! Definitions and laws: there is nothing here to call at run time but names, so any thread may do anything
//! with it.
//!
//! Not promised: that a store has what an edit needs. What left may wait for readers that came before.
#![tactic(auto)]

pub mod edit_needs;
pub mod live_counts;
mod needs;
mod pool;
pub mod room;

pub use needs::Needs;
pub use pool::Pool;
