//! The search of a bucket's chain for a key, which loads no word that the answer doesn't need.
//!
//! A block holds a filter: its numbers, the words of its key, and its actions (`filter_words` of
//! `block_codec`). A search looks at the key first, word by word, and goes on to the next block at the first
//! word that differs. Only of the filter with the key are the actions loaded, and only as many as there are.
//! So a block that is passed costs two loads or a few more, and not forty.
//!
//! # Why no block is tested
//!
//! `filter_in` of `block_codec` says of any forty words whether they are those of a filter. A search
//! doesn't ask that: its clause speaks of chains in which every block reads as a filter, and the law of the
//! store says that those of buckets are such chains. In any other chain it answers something, and ends too.
//!
//! # Who may call what
//!
//! `find_from` is a reader's, made by the one thread that has it, inside the store. It begins at any block of
//! a chain, so that whoever knows the first one needn't load it again. It takes no memory and waits for
//! nobody. The reader's seat counts the loads, and `Steps` counts the same.
//!
//! Not promised: anything of a chain with a block that reads as no filter, but for the number of loads.

mod block;
mod finding;

pub use finding::find_from;
