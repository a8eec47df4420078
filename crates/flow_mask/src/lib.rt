//! Keys under masks: whether a filter matches a packet, and where a table of filters keeps it.
//!
//! A filter is a mask and a key. It matches a packet whose field values, under the mask, are the key's.
//! Fields are never taken apart for that: bits that no field has are 0 in the mask and the key of a filter,
//! so comparing whole words under the mask says the same (`words_are_fields`), and costs one AND and one
//! compare a word.
//!
//! In the shared store the filters of one mask stand in buckets: `masked` gives the key to look for, `hash`
//! its bucket, and `size_for` how many buckets some filters get, so that at most three quarters are in use
//! until the greatest size is reached. Plain lists have an index of their own (`filter_index`). `matches`
//! serves where filters are tried one by one, and as the last word on a bucket's entries. It stops at the
//! first word that differs.
//!
//! The hash is fixed, and no secret: who chooses filters can put many into one bucket. It answers the same on
//! every machine and at every time, which a repeated run relies on.
//!
//! Those calls go over all words of a key, though a mask mostly has few words that are not 0. A caller that
//! compares often keeps a `MaskedKey`, which finds the places of those once, when it is made, and then
//! compares at these places alone: in every other word both sides are 0, as the filter's key lies under its
//! mask. The hash takes in each word, the zeros too, so a hash over the places alone would be another
//! function, with other buckets.
//!
//! Nothing here takes memory or keeps anything between calls, so any thread may call any function.
#![tactic(auto)]

mod hashing;
mod masked_key;
mod matching;
mod sizes;

pub use hashing::hash;
pub use masked_key::MaskedKey;
pub use matching::{masked, matches, words_are_fields};
pub use sizes::size_for;
