//! Edits that replace a filter that is there.
//!
//! `find_old` tells whether the filter of the line is there: where it isn't, a replace is an add
//! (`adding`). Where it is, `prepare_replacement` looks for every refusal in the order of the flat
//! state's step, takes all the memory that the change will want, and leaves the state as it was. `replace`
//! does the change on lists that are still as they were, and takes no memory: it binds and makes the new
//! actions, changes or moves the filter, and then lets the old actions go. A filter with the same mask and
//! key stays in its place; another leaves it for the end of its new mask, and its old mask goes if nothing is
//! left in it. `replace_at_once` does both in one call, for whoever asks nothing in between.
//!
//! One thread changes the lists at a time, by `&mut`.
mod at_once;
mod doing;
mod finding;
mod planning;
mod replacement;

pub use at_once::replace_at_once;
pub use doing::replace;
pub use finding::find_old;
pub use planning::prepare_replacement;
pub use replacement::{Change, Old, Replacement};
