//! Filters, masks, tables and actions as the forty words of a block of the shared store.
//!
//! The store that threads read without a lock holds words and nothing else. So whatever a packet meets there
//! has to be made of words, and read back by a thread that knows nothing but the words. What `write_` makes
//! of each of the four stored things is told by a list of words (`filter_words`, `mask_words`, `table_words`,
//! `action_words` in specs/): the words that have a name, then zeros, then in the last word the link to the
//! next block of the chain. `read_` answers the one mask, table or action whose words these are, and `None`
//! exactly where there is no such thing. A filter has no such call, since a walk compares its words where it
//! looks for a key; what they read as is a definition (`readings`). So a word that is out of its limits, or
//! that isn't 0 where nothing has a place, is never passed over, and two different things never have the same
//! words.
//!
//! The first word says what kind of thing the block has, 1 to 4, so that no thing is read as another. Numbers
//! of 32 bits share a word where they are always read together. Where in the store each root stands say the
//! constants of `store_history`, and where the blocks of tables those in `places`.
//!
//! Everything is plain data with room of its own: no call takes memory or keeps anything between calls, so
//! any thread may make any call. Not promised: that a key or a mask has bits in fields alone, or that a
//! name's thing is there. Those are the state's rules.
#![tactic(auto)]

mod action;
mod block;
mod filter;
mod mask;
mod mask_slots;
mod names;
mod parameters;
pub mod places;
pub mod readings;
mod row_numbers;
mod table;

pub use action::{StoredAction, read_action, write_action};
pub use filter::{StoredFilter, write_filter};
pub use mask::{StoredMask, read_mask, write_mask};
pub use mask_slots::MaskSlots;
pub use row_numbers::RowNumbers;
pub use table::{StoredTable, read_table, write_table};
