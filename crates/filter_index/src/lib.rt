//! The filters of one mask, found by key and by handle at once.
//!
//! A packet is looked up in each mask by its key, and an edit names a filter by its handle or by its key. So
//! the filters stand in slots, in the order in which they were accepted, and beside them two indexes say in
//! which slot the filter of a handle, and of a key, stands. A filter that is taken out leaves its slot empty.
//! So no other filter moves, no place in an index changes, and looking up, putting, taking out and changing a
//! filter cost the same at 4,096 filters as at 16.
//!
//! The index by key is made of chains. Each key has a digest, a sum of its words times odd factors, whose
//! multiplications don't wait for each other. The digest tells the chain; a head names the last slot of each
//! chain, and each slot the one before it. So the slots of a chain fall, and a look-up goes from the last to
//! the first that has the digest, and compares keys there alone. A new slot goes to the head of its chain,
//! and one that is emptied is passed over by the slot behind it. There are at least as many chains as slots;
//! where there would be fewer, the filters move into new room.
//!
//! Most packets meet no filter of a mask. For these there is a `Sieve` beside a mask's filters: it looks at a
//! few words of a key under the mask's, and knows of 64 marks which ones the filters' keys have. A key whose
//! mark isn't set is no filter's. It stays right where filters are taken out, since a mark too many only
//! costs a look-up. A `Sieve` isn't tied to a `Filters`: whoever holds both puts each key into both
//! (`MaskList` of `filter_tables`).
//!
//! Most masks have so few words that aren't 0 that a sieve looks at all of them. What it makes of a frame's
//! key is then the digest of that key under the mask, since a word under a 0 adds nothing. So it serves the
//! mark and the chains at once, and keys are compared at these words alone (`with_frame`). That holds as long
//! as each filter's key is 0 in all other words, which `Sieve::covers` tells of a key before it is put. Where
//! it doesn't, a key is put under the mask and looked up whole (`with_key`).
//!
//! A `Filters` is the list of its filters, and contracts see no more than that list and for how many more
//! room is reserved. No two of the filters have the same handle, or the same key. Whoever puts a filter has
//! looked up both before, and an answer of `with_key` or `with_handle` is that of a search through the whole
//! list.
//!
//! Room is reserved apart from use, so that an edit can be refused for want of memory before it has changed
//! anything. Empty slots are given up by `reserve` alone: once no slot is left and half of the slots or more
//! are empty, or there are as many slots as chains, the filters move together, into room for twice as many.
//! That room is taken before the first filter moves, so a refusal loses nothing. A move goes through all
//! slots, and about as many filters were put or taken out since the move before.
//!
//! Whoever goes over all filters takes `slots` and passes over the empty ones. There may be as many slots as
//! room was reserved for, however few filters are left.
//!
//! One thread changes a `Filters` at a time, by `&mut`; any may read it by `&`.
//!
//! Not promised: that memory suffices, how many slots are empty, in which slot a filter stands, and that keys
//! spread evenly over the chains and marks: the digest is the same in each run, so who chooses filters can
//! make many share a chain.
#![tactic(auto)]

mod chains;
mod digests;
mod filter;
mod filters;
mod room;
mod sieve;

pub use filter::Filter;
pub use filters::Filters;
pub use sieve::Sieve;
