//! The filters that an edit takes away, read off the lists before it, and masks found after it.
//!
//! Whoever keeps what stood where over time has to know of each filter that goes the serial of its mask, its
//! key and its actions. By the time an edit is done, the lists no longer have it. So these are copied out
//! before (`gone_filters`): those of one filter, which is found by its handle, or those of all filters of a
//! table that goes. Of an edit of one action its serial is asked before as well (`serial_named`). Afterwards
//! the mask of a line, or whether the mask of a filter that went has others left, is found by its words
//! (`mask_serial`).
//!
//! What is told is told in the words of the plain state that the lists spell: its rows, in the order of the
//! lists.
//!
//! Any thread may call, with lists that it has. Memory is taken for the copies alone, and nothing changes.
//!
//! Not promised: that the edit is accepted.

mod going;
mod masks;
mod serials;
mod tables;
mod telling;

pub use going::GoingFilter;
pub use masks::mask_serial;
pub use serials::serial_named;
pub use telling::filters_going;
