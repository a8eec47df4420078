//! The chain that a hook's root comes to name, in the terms of the hook's law.
//!
//! A writer that gives a hook other tables fills a block for each and commits the chain once
//! (`miniq_pair::HeadPair::swap`). The law of the hook then asks what that chain reads as: the hook's tables
//! in order, with the serials of their masks, and which masks it names with which slots. Both are said here
//! of tables as they are stored, so that who swaps compares two lists and needs to know nothing of blocks.
//!
//! Laws only: there is nothing here to call at run time, so any thread may do anything with it.
//!
//! Not promised: that the tables are those of any state, which whoever swaps has to show.

mod laws;

pub use laws::head_chains_read;
