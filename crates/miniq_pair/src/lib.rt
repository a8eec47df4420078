//! The tables of a hook in a shared store: read by walks while one writer puts others in their stead.
//!
//! The root of a hook names the chain of its tables, a block for each, in the order in which packets meet
//! them. Each has the serials of its masks with their slots, so that whoever has read the head can look up in
//! any of them. It is the first thing that a walk loads, and all else is reached through it (`head`).
//!
//! # Why two places suffice
//!
//! An edit that makes or takes away a table or a mask changes the whole chain at once. So it isn't changed
//! where it stands: the new chain is put into the place that isn't active, one commit makes the root name it,
//! and the places change their parts (`HeadPair`, after the kernel's mini_Qdisc_pair,
//! include/net/sch_generic.h). Readers that saw the old chain walk on in it. The next change fills their
//! place, and so must wait until no chain of it was named since the base: that is a condition of `swap`,
//! which the writer of the store meets by its epochs.
//!
//! # Who may call what
//!
//! `head` is a reader's, made by the one thread that has it, inside the store. `HeadPair` is kept by the
//! thread that has the writer. Neither takes memory or waits. Whoever states the store's law implements
//! `HeadLaw` for it: what the hook's tables are after each edit is said there, and `head` tells the tables of
//! one state, with the point from which on they are so.
//!
//! Not promised: that the idle place is ever free, and that a walk reads the newest head a moment later.
#![tactic(auto)]

mod filling;
mod law;
mod pair;
mod reading;
mod tables;

pub use law::HeadLaw;
pub use pair::HeadPair;
pub use reading::head;
pub use tables::StoredTables;
