//! The writer's part of masks in a shared store: it puts filters into masks while readers look keys up, makes
//! masks and gives them other numbers of buckets, and lets masks go that have left.
//!
//! An edit of one filter changes one chain, by one commit that names its blocks anew. A mask that comes, or
//! that gets another number of buckets, is put whole into blocks and rows that nobody reads; the commits to
//! its buckets' roots come first, and the one to its own root last, so that whoever finds the record finds
//! its buckets filled.
//!
//! How chains are kept and changed stands in `mirrors` of `mask_table`, with why there is a mirror of what
//! was committed; what changes one chain in `mask_bucket_edits`; what makes a whole mask in `mask_build`.
//! `MaskWriter` is these in the order that an edit asks for. All room is taken by `with_room`. No other call
//! takes memory.
//!
//! # What is said of a writer
//!
//! Clauses see a `MaskWriter` as the masks that stand (`specs/Masks.antt`): by slot the mask, the block of
//! its record, by bucket the chain of its filters with their blocks, the latest first, and the order of all
//! its filters, where it is told; beside these the blocks and the rows that the last changing call took out
//! of masks. The arrays, the ages and the numbers of next blocks stand in the model's invariant alone: the
//! chains are read off the arrays, and each order that is told is that of the ages.
//!
//! The order of the filters is nowhere in the arrays but by the ages. It is kept as a value that clauses
//! alone read, which takes no memory (`told.rt`). Each call tells what becomes of it, and the invariant asks
//! that the ages agree. It is told as long as edits of one mask come in rising numbers, and a handle that is
//! taken out or exchanged is that of one filter, with its key.
//!
//! The words of the clauses are of what is seen (`specs/Standing.antt`): `StandsAt`, which mask stands at a
//! slot; `Holds`, which filters it has, in which order; `AreNamed`, that the roots name all that after all
//! commits. Every call that commits asks for `AreNamed` and leaves it so, and says what becomes of its slot
//! (`masks`, `order`, `list`); at all others there stands what stood there, block by block (`untouched`).
//! `proofs/Standing.antt` has what follows: a slot has one mask and one list of filters, its root is read as
//! the record, and each bucket's root as the filters of that bucket.
//!
//! # Who may call what
//!
//! `MaskWriter` is kept by the thread that has the store's writer, one for all masks of a store. No call
//! waits. Which commits may be made is the law of the store's user: a call that commits asks that the law
//! holds with the commits that it makes, and with each first part of them.
//!
//! Not promised: that a filter's handle or key is new to its mask. Two filters with one key would both stand
//! in the bucket, and readers would find the later one.
#![tactic(auto)]

mod adding;
mod blocks;
mod fitting;
mod mask_writer;
mod raising;
mod removing;
mod resizing;
mod told;

pub use blocks::Blocks;
pub use mask_writer::MaskWriter;
