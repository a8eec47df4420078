//! What a writer of masks keeps of what it committed, and the steps in which it changes a chain.
//!
//! A mask is a root for its record and a root for each of its buckets, and a bucket's root names the chain of
//! the bucket's filters, the latest first. What a reader inside may still read is never written: a filter
//! goes into a block that no chain has had since the base, and the blocks behind it stay as they are.
//!
//! # Why there is a mirror
//!
//! A writer doesn't load what it stored: a store's words are for readers, and a load tells the writer nothing
//! that a proof could use. So `Mirror` keeps in plain arrays what was committed: by slot the mask's record,
//! by bucket the first block, by block the next one, the filter and its age. That this is what the roots name
//! at the end of all commits is `IsKept` in specs/; that a mask has these filters, in this order, is
//! `HasFilters`. The arrays are of the pools' sizes, and all are taken at once.
//!
//! # Why ages
//!
//! A chain has its filters in the order of the mask's list, the latest first. When a mask gets fewer buckets,
//! chains are merged, and nothing in them says which of two filters came first. Ages do. An age is the number
//! of the edit that brought the filter, so ages rise by themselves and never run out; an edit that brings
//! several filters counts them.
//!
//! # How a chain changes
//!
//! In two steps. First blocks that no root names are filled, one in front of the other, in front of what
//! stays of the old chain (`put_in_front`): no root changes, so all that is kept stays true. Then one commit
//! names the whole chain (`name_chain`), and the mirror's number for the bucket is set (`Mirror::begin`).
//!
//! # Why numbers are kept plus 1
//!
//! A block's number plus 1, or 0 where there is none, is how a link is stored in a block's last word, so
//! chains are followed the same way here and there.
//!
//! Everything here is for the thread that has the store's writer. No call waits, and none takes memory but
//! the two `with_room`.
//!
//! Not promised: that a filter's handle or key is new to its mask. Two filters with one key would both stand
//! in the bucket, and readers would find the later one.

mod buckets;
mod copying;
mod gathering;
mod mirror;
mod naming;
mod number_room;
mod putting;
mod stored_filters;

pub use buckets::{place_for, place_in, place_of};
pub use copying::{copy_of, kept_filter};
pub use gathering::{gather, gather_mask};
pub use mirror::{KeptMask, Mirror};
pub use naming::name_chain;
pub use number_room::NumberRoom;
pub use putting::put_in_front;
pub use stored_filters::StoredFilters;
