//! That each batch line gives an edit in the ranges of a line.
//!
//! What an edit may be is said twice in this project: by the grammar of a batch line, which says how each is
//! written, and by the ranges of an edit, on which whoever takes edits relies. Those ranges are to be just
//! what lines give: this crate proves that no line gives an edit outside of them, which is one half.
//!
//! It stands apart because it is proofs alone, over the definitions of the crates below, so that none of them
//! has to be proved again when a proof here changes. There is no code: the one function does nothing, and any
//! thread may call it.
#![tactic(auto)]

ghost use Rattle.std.specs.Prelude.{ℕ, List};
ghost use Rattle.filter_state.specs.declared.edit.Edit.{Edit};
ghost use Rattle.filter_state.specs.Lines.{IsLine};
ghost use Rattle.tc_batch.specs.Grammar.{Gives};

/// The edit that a line gives is in the ranges of a line.
pub fn lines_are_in_range()
    ensures { (words : List (List ℕ)) (edit : Edit) → Gives words edit → IsLine edit }
{}
