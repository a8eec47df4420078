//! A whole mask that comes to stand at a slot: its filters are laid into blocks, and then its roots come to
//! name all of it.
//!
//! A mask stands once the root at its slot names its record. Before that no reader can find it, so its
//! buckets are made ready unseen, and masks that stand keep all that they have.
//!
//! # How a mask is made
//!
//! First in the mirror and in blocks alone, with no commit. The mask's buckets are cleared (`clear_buckets`),
//! and each filter is put in front of its bucket's chain, in a block that no root names (`lay`). What was
//! laid so far, in which order and with which ages, is `IsLaid` in specs/. Then the commits, by `raise`: the
//! root of each bucket, the empty ones too, and at last the slot's. `make_mask` does it all for filters that
//! are new; who moves filters from one mask to another calls the steps, and `lay_copies` gives them the ages
//! that they had.
//!
//! # Why the slot's root comes last
//!
//! A reader who finds a record goes on to a bucket's root. Were a record named before its buckets, the reader
//! would see the mask without filters, or with those that another mask once had in the same row. That is why
//! empty buckets are named too.
//!
//! # Why the record is filled first
//!
//! A block may be filled only while no root has named it since the base. That holds of the record's block all
//! along, but before the first commit it is what the caller said, and nothing has to be carried over the
//! commits.
//!
//! # Why the rows have to be free
//!
//! Rows are shared by all masks, and a bucket's place in the mirror is that of its row. In rows that no
//! standing mask has, buckets can be cleared and named while all others stay. A mask that gets another number
//! of buckets so has its old and its new rows side by side until the slot's root names the new record.
//!
//! Everything here is for the thread that has the store's writer. No call waits, and none takes memory.
//!
//! Not promised: that filters differ. Two with one key would both be in their bucket, and readers would find
//! the later one.
#![tactic(auto)]

mod clearing;
mod copying;
mod laying;
mod making;
mod naming;
mod raising;
mod relaying;

pub use clearing::clear_buckets;
pub use copying::{copy_of_mask, rows_of};
pub use laying::{lay, lay_all};
pub use making::make_mask;
pub use raising::raise;
pub use relaying::lay_copies;
