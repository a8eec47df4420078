//! What the program reads from and writes to, and the small types that every crate shares.
//!
//! The logic of the other crates never names a file, a stream or a test's hook. It is written over
//! three traits: a `Shelf` of files by name, a `Sink` of bytes, and a `Gate` at which a run may be
//! held. Each trait's clauses say what a call does to what is held or written, and that an error is
//! answered only where a count of faults rose. So "the file was bad" and "the file could not be
//! read" are never mixed up in a theorem above.
//!
//! Two adapters stand behind each of the first two. `MemShelf` and `MemSink` tell all that they
//! hold, and fail at the calls that they are told: rehearsals and tests run on them. `FileShelf`
//! and `StdSink` are the trusted edge: they tell nothing of content, and count their faults.
//!
//! Two more traits let a program follow a run: an `Ear` hears of each accepted edit, and a `Tender`
//! does work of its caller's while threads run. Theorems speak of what an ear heard, and of nothing
//! that a tender does.
//!
//! Shelves, sinks and tenders are called from one thread, by `&mut`. A gate is shared by all workers
//! and controls of a run. An ear goes from thread to thread, and is called by one of them at a time.
//! The list types are plain data, and may go to any thread.
//!
//! Not promised: that memory suffices (each call that takes some may answer `NoMemory`), that a
//! file which was put has reached the disk, and what a file holds after a put that failed.
#![tactic(auto)]

mod calls;
mod disk;
mod drafts;
mod ear;
mod faults;
mod file_shelf;
mod gate;
mod hook;
mod lists;
mod mem_shelf;
mod mem_sink;
mod no_memory;
mod outside;
mod pieces;
mod std_sink;
mod tender;

pub use ear::{Ear, EventName, NoEar};
pub use file_shelf::FileShelf;
pub use gate::{Gate, OpenGate};
pub use hook::{Hook, Point, Proto};
pub use lists::{Bytes, Files, Numbers, Pairs};
pub use mem_shelf::MemShelf;
pub use mem_sink::MemSink;
pub use no_memory::{NoMemory, check_room};
pub use outside::{Fetch, Put, Shelf, Sink};
pub use pieces::Pieces;
pub use std_sink::StdSink;
pub use tender::{NoTender, Tender};
