//! The history of a shared store: the list of its commits, and what its roots name after them.
//!
//! A store has numbered blocks of words, and roots. A root names a chain of blocks and a stamp. One writer
//! changes what the roots name, one root at a time, and each such change is a commit. So whatever is to be
//! said of a store over time is said of a list of commits, which only grows: what a root names after some of
//! them, which blocks were in a named chain since a moment, and which edits the numbered commits carried.
//!
//! The list is made by no program. It exists in proofs alone, where the store's writer and readers each know
//! a beginning of it. This crate has the types of its parts, the definitions over it and their lemmas, and
//! `Law`, the trait by which the user of a store says what the list shall keep. Nothing here knows of words
//! that threads share, so a law over lists of commits can be stated and proved above this crate alone, and
//! the store keeps any such law without looking into it.
//!
//! `places` says where the roots of a hook's store stand and how large its pools are. It stands here, below
//! the law of a hook and all blocks, so that each limit is a number in that file alone.
//!
//! Nothing is called at run time, so any thread may do anything with it. Not promised: that anybody keeps
//! such a list. The store above says that of itself.
#![tactic(auto)]

mod history;
mod law;
mod laws;
pub mod places;

pub use history::{Commit, Link, Named};
pub use law::{EditName, Law};
pub use laws::{edits_grow, named_blocks_grow, one_root_changes};
