//! A filter taken out of a mask, or another put in its place.
//!
//! Both change one bucket's chain: what stands in front of the filter is written anew, and what is behind it
//! stays as it is. What a reader inside may still read is never written, so the later filters of the bucket,
//! which are in front, can't be linked past the one that goes: they are copied into given blocks, the last
//! one first, each linked to the one behind it. Then one commit names the copies.
//!
//! # How an edit goes
//!
//! `find` and `find_in` look for the handle in what the mirror keeps, and put the bucket's chain into a room.
//! `find` is told a hash, and looks into that bucket first: the hash of the filter's key says which it is. No
//! clause rests on it, so a wrong one costs a search of the whole mask and nothing else.
//! `rewrite` does what both edits share: it puts the new filter, if there is one, in front of what was behind
//! the old one, and copies of the filters in front of that (`put_edited`), and makes the commit (`rename`).
//! `take_out` and `exchange` are the two edits, with the contracts of their users.
//!
//! # Why copies keep their ages
//!
//! A mask's filters are in the order of their ages, and an edit of one filter leaves the order of the others.
//! So a copy has the age of the filter that it copies, and a filter that takes another's place has that one's
//! age. Then the bucket's chain says what the mask's list says, and no other bucket is touched.
//!
//! # What is told of many blocks
//!
//! `ArePut` in specs/ says what became of some blocks and of all others, and in front of which chain they
//! stand. Two such steps, one in front of the other, are one (`put_both` in proofs/), so a loop over blocks
//! says no more than a single one.
//!
//! Everything here is for the thread that has the store's writer. No call waits, and none takes memory.
//!
//! Not promised: that no other filter of the mask has the handle. The one that is found first is edited, and
//! what the mask's list becomes is said only where there is no other.
#![tactic(auto)]

mod copying;
mod editing;
mod finding;
mod renaming;
mod rewriting;

pub use copying::{put_copies, put_edited};
pub use editing::{exchange, take_out};
pub use finding::{Found, find, find_in};
pub use renaming::rename;
pub use rewriting::rewrite;
