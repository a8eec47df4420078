//! Which blocks and roots of a shared hook's store may be given again, as facts over its commits.
//!
//! A writer that gives blocks, rows and slots has to know that no reader can still come to them. What it may
//! give is said here by the commits alone and not by time: a block is free where no chain that was named
//! since the base has it, and a root where it stood for nothing since the base (`hook_law`). What left is not
//! free yet: a root at which nothing stands any more, or a block that only such roots have. Once all readers
//! that were inside have left, the base has risen over all commits, and what left is free.
//!
//! The laws say what one commit does to that. It makes no block free or taken but those that were given to
//! it, and takes no root but its own; so whoever gives each number once need not look at the others.
//!
//! Definitions and laws: there is nothing here to call at run time, so any thread may do anything with it.
//!
//! Not promised: that a number comes back; that is the doing of whoever tidies, and asks that no reader stays
//! inside.
#![tactic(auto)]

mod laws;

pub use laws::{blocks_at_the_base, blocks_of_a_commit, roots_of_a_commit};
