//! The blocks of a mask in the order of its filters.
//!
//! A mask's filters have an order, in which they came, and each bucket's chain has that bucket's filters
//! alone. When the mask gets another number of buckets, all its filters are laid anew, one after the other:
//! so its blocks must first be put in order. `in_order` does that, by the ages that are kept of them.
//!
//! # Why that is the order
//!
//! Each filter is in exactly one bucket, so the blocks of all buckets are those of all filters, in some
//! order. Ages rise strictly in the order of the filters, so no two filters have one age, and blocks whose
//! ages don't fall are in that order: there is no other.
//!
//! # What chains read as
//!
//! What a bucket's root names must read as the filters of the bucket, and so must what a commit is going to
//! name. `chains_read` and `changed_chains_read` say so, of what is kept and of what is built (`Linked` and
//! `Changing` of `mirrors`), once for all calls that commit.
//!
//! Everything here is for the thread that has the store's writer. No call waits, and none takes memory.
//!
//! Not promised: that two filters of a mask have different handles or keys.
#![tactic(auto)]

mod ordering;
mod reading;

pub use ordering::in_order;
pub use reading::{chains_read, changed_chains_read, placed_chains_read};
