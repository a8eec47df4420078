//! One hook, edited by one thread while others walk it.
//!
//! # One writer, many readers
//!
//! A `Desk` belongs to the one thread that edits: it has the plain lists of the hook's filters and actions,
//! and the writer of the store that follows them. Each edit is one numbered commit to that store, with a few
//! without a number around it. Up to eight `HookReader`s, each in a thread of its own, walk the store
//! meanwhile. `make_hook` makes all of these at once, for a hook without a qdisc.
//!
//! `Desk::try_apply` applies an edit. The plain step decides whether it is accepted. Then all memory is taken
//! and all that the edit needs of the pools is known, before the first commit is made: nothing can fail
//! between two commits, so an edit stands whole or not at all. The commits of an edit of filters are made
//! by `desk_edits`, in the order that readers inside need. Beside it a desk tells its lists and its pools,
//! gives out receipts, meets readers and tidies.
//!
//! # Why no reader waits
//!
//! A reader loads words, and what a root names doesn't change while it reads: an edit puts what is new into
//! blocks that no reader inside can come to, and then one root's word makes it stand. So a reader is never in
//! the way of an edit and no edit in the way of a reader. What a reader may still read is not given again
//! before it leaves: the pools keep apart what is free and what left.
//!
//! # What a point is
//!
//! The journal is the list of edits that the commits carry, and a point is a number of them. Each visit of a
//! walk is answered as the state at one point, at which the visited thing stood (`hook_reader`). The lists of
//! the desk are the state at the journal's end, so who holds a desk can compare.
//!
//! # What is given again, and when
//!
//! Blocks, rows, slots and the idle places of tables that left may be given once every reader that was
//! inside at that time has left. `Desk::tidy` finds out, by epochs, and says which reader is in the way where
//! one is. `try_apply` tidies where a pool has less than the edit needs. Where it has less even then, the
//! edit is held: it stands nowhere, the answer names the pool and a reader that is inside, and the caller may
//! try again. What is free, what left and what the state has in use are all that a pool has, and a state and
//! an accepted edit never need more than that: so an edit is held only where something had left.
//!
//! # Who may call what
//!
//! The desk and each reader may be sent to any thread, and are used by one at a time. A reader that learns a
//! receipt of the desk (`receipt`, then `learn`) answers no visit of a head from before it. `make_hook` and
//! `try_apply` take memory; no other call here does, and none waits.
//!
//! Not promised: that a reader ever leaves, that a held edit is ever accepted, and that two readers see one
//! edit at one time.
#![tactic(auto)]

mod applying;
mod balance;
mod beginning;
mod clearing;
mod counts;
mod desk;
mod desk_edits;
mod fault;
mod making;
mod named;
mod passes;
mod plans;
mod short;

pub use counts::PoolCounts;
pub use desk::Desk;
pub use fault::ApplyFault;
pub use making::make_hook;
pub use passes::Passes;
