//! The terms of the hook's law at this project: what edits do to its states, and what its blocks read as.
//!
//! `hook_law` says what the commits of a hook's store keep, and knows neither states nor blocks. They come to
//! it as two records. The meaning (`specs/Stated.antt`) is the plain state of `filter_state`, with its steps
//! and its lawful lists of edits: the tables of a hook are those of a walk, the filters, words and actions
//! are the state's, and a mask has its buckets by the hash and the sizes of `flow_mask`. The codec
//! (`specs/Blocks.antt`) is that of `readings` in `block_codec`. `HookTerms` hands both to the functions of
//! `hook_law`.
//!
//! `specs/Told.antt` says what commits tell of tables, masks and filters in the types of those who read the
//! store: the tables of a hook, and the words and the filters of a mask, after a number of edits, with each
//! action at the slot to which the commits put it.
//!
//! # Why a crate of its own
//!
//! A law of `hook_law` speaks of one root after some commits. Whoever reads the store asks for what `MaskLaw`
//! and `HeadLaw` say, in the types of blocks and of visits. The lemmas in `proofs/` lead from the one to the
//! other, and `hook_store_law`, which makes of them a type that a store keeps, takes them as they are. It
//! stands above, since the items of a law can only cite proofs of another crate, and passes on all modules of
//! this one: whoever keeps such a store names that crate alone.
//!
//! The filters of a bucket are the state's, slots and all, since a bucket's root still holds what it held at
//! a time at which the bucket stood. That a hook has 256 tables at most, and that no two filters of a mask
//! have one key, follows from the soundness of every state that lawful edits lead to.
//!
//! What a state has of one mask and of one action, and what each kind of edit changes of it, is said below,
//! of plain states alone (`edit_effects`).
//!
//! `KeepsHook` (`specs/Kept.antt`) is what the commits of a hook's store keep: the law at these terms, and
//! that the stamps of each root rise. `edits` says of each kind of edit that it meets what the law asks about
//! the states before and after its commit. `visits` leads from what a reader loads to the answers of the plain
//! state.
//!
//! Nothing here has code: the functions do nothing, and any thread may call them. Not promised: that an
//! edit's commits meet the premises of their kind, which whoever makes them has to show; and that an action's
//! root is read at all, for which no call stands here.
#![tactic(auto)]

pub mod edits;
mod laws;
mod terms;
pub mod visits;

pub use laws::{actions_have_their_parameters, opens_at_nothing, states_stay_sound};
pub use terms::HookTerms;
