//! Where the mask of a line stands, and the filter that a line names.
//!
//! A line names a table by its chain and pref, a mask by its words, and a filter by its handle. The lists
//! have these at places; the store has masks at slots. The tables that a desk keeps as they are stored stand
//! in the order of the lists, mask by mask, since both are the tables of one state. So a place that the lists
//! find is the place of the slot, and nothing is searched twice.
//!
//! What is found is told in the words of the state: the row of the mask or of the filter, and that a head
//! names the mask at that slot.
//!
//! The thread that has the desk calls. No call changes anything, takes memory or waits.
//!
//! Not promised: anything of a mask or filter after a further edit.

mod filters;
mod masks;
mod slots;
mod tables;

pub use filters::{FoundFilter, find_filter};
pub use masks::{FoundMask, find_mask};
pub use tables::table_at;
