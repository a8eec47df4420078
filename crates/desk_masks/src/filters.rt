//! Edits of one filter of a mask that stands, on a hook's live store.
//!
//! Such an edit is one numbered commit, to the root of one bucket: a walk meets the bucket as it was or as it
//! is. A filter that is added comes in front of its bucket's chain, in one block. A filter that goes, or
//! whose place another takes, stands behind the later ones of its bucket; these are laid into other blocks,
//! since readers may be in their chain, and the old blocks leave.
//!
//! `MaskWriter` makes the commits, and asks that the store's law hold with each. Here that is shown for the
//! law of the hook, once for each kind of edit, from what is known of the edit (`filter_commits`), and what
//! is kept between edits is handed on: the masks are those of the state, with its filters in its order.
//!
//! # Who may call what
//!
//! The thread that has the store's writer calls. Blocks are handed in, and those that leave are told: the
//! pools aren't touched here, and clauses say what holds of them. Actions that an edit makes were put before;
//! another number of buckets comes after, where `rests` says that the mask has no longer the size for its
//! filters. Nothing is refused, no memory is taken, and no call waits.
//!
//! Not promised: that what left is free again, which `tidying` of `desk_pools` sees to.

mod adding;
mod counting;
mod exchanging;
mod laws;
mod removing;

pub use adding::add_filter;
pub use counting::later_in_bucket;
pub use exchanging::exchange_filter;
pub use laws::edited_filters_are_there;
pub use removing::remove_filter;
