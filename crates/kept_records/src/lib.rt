//! What a reader of a live hook keeps of the records that it decoded.
//!
//! A walk asks for a mask and for an action at each step, and their records change seldom. So a reader keeps
//! what it decoded last, by the number and the stamp of the root that named it. A visit loads the root's
//! word, and where the stamp is that one, and there is a block, the root names the same chain: the law of the
//! store says that stamps of one root rise. It doesn't matter how long ago that was, nor whether the reader
//! was outside meanwhile and the blocks were given again. Else the block is read and decoded, and kept.
//!
//! Of a bucket the filter is kept that was found in it last, with its key. So a packet that meets that filter
//! costs the root's word and a comparison; else the chain is searched (`searches`).
//!
//! Records are kept in places, which roots share by their numbers (`things`). `HookRecords` is what is kept,
//! with the two visits that use it. Their clauses speak of what roots name, as `specs/Told.antt` of
//! `mask_table` says of a look-up; nothing in them tells whether something was kept.
//!
//! # Who may call what
//!
//! What is kept belongs to one reader, and is used with that one alone: `KeepsRecords` says of it what that
//! reader has seen. Only `with_room` takes memory. Nothing here changes the store, and no call waits.
//!
//! Not promised: that anything is still kept at the next visit. Roots share places.
#![tactic(auto)]

mod bucket;
mod first_block;
mod known_filter;
mod looking;
mod records;
mod renewing;
pub mod searches;
pub mod things;

pub use known_filter::KnownFilter;
pub use records::HookRecords;
