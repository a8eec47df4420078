//! The actions of a shared store: each is one block with its record, which the root of its slot names.
//!
//! A filter names its actions by serial and slot. A slot is a root, and an action keeps its slot as long as
//! it is live, so that whoever has read a filter finds the action behind it, even after its parameters have
//! changed. `put_action` is the writer's: it puts a record into a block that no reader inside can read, and
//! makes the one commit by which the slot's root names it. So a changed action is a new block too, and a
//! reader sees the old record or the new one, never a part of each. The root's stamp is the point from which
//! on the record is the action's.
//!
//! That the block that was written reads as the action is a law (`actions_read_back`), which whoever commits
//! needs beforehand: the store's law is asked for before the commit, and says what the root's block reads as.
//!
//! # Who may call what
//!
//! `put_action` is called by the thread that has the writer. It takes no memory and doesn't wait. The store's
//! law is any law: who gives slots and blocks, and what an edit changes, is decided above.
//!
//! Not promised: that a slot's record is that of some live action. What left stays where it stood, until its
//! root is committed empty.

mod laws;
mod putting;

pub use laws::{actions_read_back, parameters_can_be_stored};
pub use putting::put_action;
