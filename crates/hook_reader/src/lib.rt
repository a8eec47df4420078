//! The readers of a live hook: they answer a walk's questions from a store that one writer edits meanwhile.
//!
//! A `HookReader` is a reader of the hook's store with what it remembers from one visit to the next. Between
//! `enter_walk` and `leave_walk` it answers one walk, through `Walking`, which implements the `Visits` of
//! `walk_steps`. Each visit loads one root or two, and what it needs of the blocks, and waits for nobody:
//! what the roots named as the reader went in, or later, stands until it leaves.
//!
//! # What a point is
//!
//! An answer is that of one state: the one after so many edits as its point says. A root's stamp says from
//! which point on its chain stands as it is, and the law of the store says that it does so up to all that the
//! reader has seen, or up to the last state in which the thing stood. So any point in between will do, and
//! the rule picks the least one that never goes back (`specs/Told.antt`):
//!
//! - A head's point is the greatest of its stamp and of all points and receipts that this reader has seen. So
//!   a walk that begins after an edit was handed over by a receipt sees that edit.
//! - A look-up's is the greatest of the two stamps that it loads, of the head's point, and of the point of
//!   the walk's last look-up at that slot. Two keys may lie in two buckets with different stamps: without the
//!   last part a walk could see a mask of later and then of earlier.
//! - An action's is the greater of its root's stamp and the head's point. Its root is one, and stamps of one
//!   root rise, so that nothing has to be remembered.
//!
//! # What is kept of a head
//!
//! A head is asked for by every packet and changes seldom. So a reader keeps the tables of each hook as it
//! read them last, with the root's stamp. A visit loads the root's word, and where the stamp is that one, and
//! there is a block, the root names the same chain: the law of the store says that stamps of one root rise.
//! It doesn't matter how long ago that was, nor whether the reader was outside meanwhile and the blocks were
//! given again. Else the blocks are read and decoded.
//!
//! The records of masks and of actions are kept in the same way, by `kept_records`. So in a hook at rest a
//! visit loads words of roots, and of filters what tells whether they are met.
//!
//! # What is known
//!
//! A walk asks for masks and actions by names that it was told, with the slot of each. That the name is still
//! good is a fact about commits (`specs/Known.antt`): the thing stood at its slot at some time since the
//! reader went in, and that time reaches the points so far. Nothing at run time keeps these facts. In a walk
//! that visits one head, a mask has one slot.
//!
//! # Who may call what
//!
//! A reader may be sent to any thread and is used by one at a time; there are as many as the store has. Only
//! `HookReader::new` takes memory. Nothing here changes the store, and nothing stands on the crates that do.
//!
//! Not promised: that a visit sees the latest edit. It sees what its loads told, and `learn` is how one
//! thread hands to another what it has seen.
#![tactic(auto)]

mod acting;
mod head_seen;
mod heading;
mod kept_head;
mod loads;
mod looking;
mod reader;
mod receipt;
mod same_heads;
mod slot_points;
mod telling;
mod walking;

pub use reader::HookReader;
pub use receipt::HookReceipt;
pub use walking::Walking;
