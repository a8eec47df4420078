//! One word of a root, one chain.
//!
//! A root's word has a stamp and the first block's number, and nothing else. Whoever has read a chain once,
//! and finds the same word again, would like to know that it is the same chain, so that the blocks need not
//! be read again. A store alone can't promise that: its blocks are given again, so one number may stand for
//! other words later, and a stamp only says from which point on the chain is right.
//!
//! It holds where each commit has a later stamp than what its root named before, or empties the root
//! (`StampsRise` in `specs/Words.antt`). Then two commits of one root with one stamp have at most one chain
//! between them, whichever blocks were given again meanwhile. There is no base here: the chain may have been
//! read long ago, by a reader that has been outside since.
//!
//! Laws only, over histories: there is nothing here to call at run time, so any thread may do anything with
//! it. Not promised: that a writer's commits do rise. Whoever commits has to show that of each.
#![tactic(auto)]

mod laws;

pub use laws::{commits_follow, one_word_names_one_chain};
