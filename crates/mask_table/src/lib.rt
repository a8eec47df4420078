//! The masks of a shared store: what a reader's look-up of a key tells while one writer changes what it
//! reads, and what that writer keeps.
//!
//! A mask is a hash table of buckets. Its root, at the mask's slot, names one block, the mask's record: its
//! serial, its words, how many buckets there are, and the rows that have their roots. A bucket's root names
//! the chain of the bucket's filters, the latest first. So a look-up is two roots and the blocks of one
//! bucket, whatever the number of filters. The call is `look` of `kept_records`, which may know the record
//! and the filter from before; what it tells is defined here (`specs/Told.antt`).
//!
//! # Why the point is the greatest of the stamps
//!
//! Each root says from which number of edits on its chain stands as it is. The record is right from its own
//! stamp on and the bucket from its, so from the greater of the two on both are right at once, and the answer
//! is that of one state. The last stamp alone wouldn't do: the bucket may be old and the record new. That
//! both are right up to a time at which the mask still stood is what `MaskLaw` says: the writer commits
//! nothing more to what has left.
//!
//! # Why a bucket is told with the record's stamp
//!
//! The record is loaded at one time, and the bucket later. In between the mask may get a new record with
//! other rows, or leave. The law gives for the later load a time at which the slot still stood with a record
//! of the same stamp and size. So what was read of the record is true then too.
//!
//! # Who may call what
//!
//! Whoever states the store's law implements `MaskLaw` for it; this crate says nothing of how edits become
//! commits. No call here is a reader's. `mirrors` is the writer's side: what it keeps of the masks that it
//! committed, and the steps in which it changes a chain.
//!
//! Not promised: that two look-ups of one walk have rising points. The layer that walks raises them: what a
//! look-up tells holds for each higher point as well.
#![tactic(auto)]

mod law;
pub mod mirrors;

pub use law::MaskLaw;
