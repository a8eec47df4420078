//! The actions that may go with an edit of filters, told before it.
//!
//! A filter that an edit takes away or replaces lets its actions go: each loses a place that names it, and
//! one that no other place and no reference of its own holds is live no more. The lists do that by
//! themselves. But whoever follows them in a store has a slot and a block for each live action, and by the
//! time the edit is done the lists no longer know what the filter named. So the serials are copied out
//! before: those of one filter, which is found by its handle, or those of all filters of a table that goes.
//!
//! They come in the order of the lists, which may be another than that of a journal's state: the rows of
//! different masks may stand in any order. What is told is the same for both, which serials there are.
//!
//! Any thread may call, with lists that it has. Memory is taken for the copy alone, and nothing changes.
//!
//! Not promised: that the edit is accepted, or that any of these actions goes. Others may hold it.
mod telling;

pub use telling::serials_going;
