//! The law of the hook's store.
//!
//! The hook is kept in a store of blocks that one writer fills and many readers walk. Such a store keeps one
//! law, over the list of its commits, and its readers learn what the law says of what they loaded. `HookLaw`
//! is that law (`KeepsHook`): the law of a hook (`hook_law`) at this project's states, edits and blocks
//! (`hook_meaning`), and that the stamps of each root rise (`root_word_laws`). What a numbered commit carries
//! is an `Edit`.
//!
//! # Why one type
//!
//! A store has one law, and each way of reading it asks for its own facts: `HeadLaw` for the tables of a
//! hook, `MaskLaw` for the filters of a mask. Both are said of this one type, so the head of a hook and its
//! masks are looked up in one store by one reader, and what is told speaks of the same states: the tables,
//! the words and the filters are those of the plain state after so many of the edits that the commits carry.
//! A mask stands at a slot where a head names it with that slot.
//!
//! # Why stamps rise
//!
//! The second part of the law is about words of roots alone (`root_word_laws`): each commit has a later stamp
//! than what its root named, or names no chain. The law of a hook says nothing of the kind: two commits
//! without a number could put two chains to a root that stands for nothing, at one point. Readers rest on it
//! when they find a word again that they have read before.
//!
//! # Who uses it
//!
//! The desk above, which makes the store, its writer and its readers, and decides which commits an edit
//! makes. Nothing of this type exists at run time, and it has no call, so any thread may name it.
//!
//! The definitions and lemmas stand in `hook_meaning`, since the members of a law can only cite proofs of
//! another crate. Its modules are passed on here, and who keeps such a store names them by this crate.
//!
//! Not promised: that the commits of any edit keep the law. The laws of `hook_law` say what each kind of
//! commit has to meet, and the crate that commits has to show it. Nor is anything said here of how actions
//! are read.
#![tactic(auto)]

mod law;

pub use law::{HookLaw, HookStore};
