//! A store of blocks that one writer fills and many readers walk, without a lock and without waiting.
//!
//! # What it is
//!
//! The store is one row of 64-bit words, each changed in single atomic steps. Most of them make up numbered
//! blocks. Each root has a word, which names the first block of a chain and holds a stamp; the last word of a
//! block links to the next one. The writer fills blocks that nobody can be reading, and then commits: it
//! stores one root's word, and from that step on the root names the new chain. So a reader that loads a
//! root's word sees the chain before a commit or the chain after it, whole. Readers write to no block and no
//! root.
//!
//! The commits of a store make up its history, a list that exists in proofs alone (`store_history`). The
//! writer has seen all of it, a reader has seen a beginning of it, and no call takes anything from what was
//! seen. Every answer is told in its terms: `load_root` gives what the root names at the end of what the
//! reader has then seen. Edits reach the history without bytes: a numbered commit carries the edit that its
//! caller names by a type.
//!
//! The user of a store states a `Law` over the history. `commit` asks that it holds with the new commit, and
//! each `load_root` tells the reader that it holds of all that this reader has seen. The store itself never
//! looks into the law.
//!
//! # Why epochs
//!
//! A block can be filled again only when no reader can still be walking a chain that has it. Readers that
//! gave blocks back would have to write to shared words at each step, so blocks come back by time. The writer
//! begins an epoch (`bump`) once it has unlinked blocks. A reader raises its own pin as it enters and as it
//! leaves, so that the pin is odd exactly while it is inside, and reads the epoch as it enters: what was
//! named since that epoch began stands for it until it leaves. The writer loads the pins (`scan`). A reader
//! whose pin is even, or isn't what it was at an earlier scan of this epoch, has been outside since the epoch
//! began. An odd pin that is found twice says nothing, however often it is found. When all readers are clear
//! the epoch is quiet, and a block that no chain had since its start may be filled: that is the condition of
//! `fill`. A reader that stays inside holds blocks back, and neither the writer nor anyone else waits for it;
//! `scan` names it.
//!
//! # Who calls what
//!
//! `make_store` makes the store, its one writer and its readers. The `Store` is shared by `&` between all
//! threads. The `Writer` and each `Reader` may be sent to any thread, and are used by one at a time, by
//! `&mut`. A reader loads between `enter` and `leave` alone. Its seat counts the loads of roots and of
//! blocks' words where they happen, so no body above can hide one; a `Steps`, which takes no bytes, counts
//! them for the caller. What one thread has seen reaches another by a `Receipt` (`receipt`, then `learn`),
//! and the writer learns that a reader has seen nothing but its commits by `meet`.
//!
//! Only `make_store` takes memory. No call waits, and each returns.
//!
//! # What is proved
//!
//! `specs/Rule.antt` has the store rule: what holds, between any two steps of any threads, of the words and
//! of what every seat knows. That each kind of step keeps it is `steps_keep_the_rule`; that a block which may
//! be filled is in no chain that a reader inside may load is `filled_blocks_are_free`.
//!
//! Not promised: that what a load has seen is every commit that was made by then (no clause can speak of the
//! time of a load in another thread); that a reader ever leaves, so that an epoch ever becomes quiet; any
//! order in time between threads that told each other nothing; and that there is memory for a store.
#![tactic(auto)]

mod laws;
mod making;
mod note;
mod plays;
mod reader;
mod readers;
mod receipt;
mod root_word;
mod scan;
mod shape;
mod steps;
mod store;
mod table;
mod view;
mod writer;

pub use laws::{filled_blocks_are_free, steps_keep_the_rule};
pub use making::make_store;
pub use reader::Reader;
pub use readers::Readers;
pub use receipt::Receipt;
pub use root_word::RootWord;
pub use scan::Scan;
pub use shape::Shape;
pub use steps::Steps;
pub use store::Store;
pub use writer::Writer;
