//! How the words of a block read, as definitions that compute.
//!
//! `block_codec` says which words a filter, a mask, a table and an action have, and its calls answer the one
//! thing whose words these are. A law over what a store holds asks the same of words that no call was given:
//! what they read as (`specs/OfReadings/Read.antt`). Here that is a value for each list of words, and
//! `blocks_read_as_one` says that it is the one that the words are those of. The calls answer that value, of
//! masks, tables and actions: filters are searched for by their words. They keep nothing and take no memory,
//! so any thread may make them.

mod laws;
mod reading;

pub use laws::{actions_read_as_one, blocks_read_as_one};
pub use reading::{action_in, mask_in, table_in};
