//! The walk of one packet at a live hook, by a worker of a run.
//!
//! # What is added to a reader's visits
//!
//! A reader of a hook answers one question at a time, each at a point of its own (`hook_reader`). A packet's
//! walk asks many, in an order that the answers decide (`walk_steps`). `walk_packet` takes a reader into a
//! walk and out again, and its clause is of the whole walk: over one journal, the edits that the reader has
//! seen when it comes out, each visit was answered by the state at its point, and the points are lawful as a
//! run's are (`lawful_runs`): the head's is no earlier than anything that the reader had seen before, no
//! other is below the head's, and for one mask or one action they never fall.
//!
//! An answer was given when the reader had seen less. But its point lies within what was seen then, and what
//! is seen only grows at its end, so the point names the same state ever after.
//!
//! # The gate
//!
//! A rehearsal may hold a worker before each visit, to choose who goes first. So the gate stands between the
//! walk and the reader (`Gated`), and has no meaning in any contract.
//!
//! # Who may call what
//!
//! A walk and a reader belong to one worker, in a thread of its own; the store and the gate are shared. No
//! memory is taken. Only the gate may wait.
//!
//! Not promised: that the reader sees an edit at any time, beyond what it had seen before.

mod gated;
mod packet_name;
mod walking;

pub use packet_name::PacketName;
pub use walking::walk_packet;
