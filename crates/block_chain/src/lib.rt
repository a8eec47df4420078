//! A reader's way along the chains of a shared store whose blocks have forty words.
//!
//! A root names a chain of blocks. A reader loads the root, and then a block at a time: the last word of each
//! says which block is next. `Walk` is where it stands on that way. It is a number alone, the next block's
//! plus 1: that this block is in the chain, and which one it is, is said by contracts (`specs/Ways.antt`),
//! which also say when the chain is over.
//!
//! What the blocks hold is not looked at here. The search of a mask's bucket and the reading of a hook's
//! tables, each a loop of `next_block` and one reading function, stand on this crate, so that neither has to
//! know of single words.
//!
//! The calls are a reader's, made by the one thread that has it. None waits or takes memory. Not promised:
//! that a chain is short. Each block costs forty loads, which the reader's seat counts, and `Steps` for the
//! caller.
#![tactic(auto)]

mod block;
mod walk;

pub use block::load_block;
pub use walk::Walk;
