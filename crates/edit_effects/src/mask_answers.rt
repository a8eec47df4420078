//! A search of one mask's filters answers what the plain state answers.
//!
//! A plain state answers a look-up from its flat rows: the first row of the mask whose fields the frame
//! meets. Whoever keeps masks as tables searches the filters of one mask for one key, the frame's words under
//! the mask's. `searches_answer` says that both are one answer. Fields and words agree since the key and the
//! mask of each row have fourteen words and no stray bit, and at most one filter of a mask has a key, so that
//! it does not matter in which order the filters are searched. Both hold of every sound state.
//!
//! The mask has to stand: a state has no answer for a mask without filters, while a search would find none.

ghost use Rattle.std.specs.Prelude.{◌≡◌, ℕ, Bool, List, length, Some};
ghost use Rattle.flow_fields.specs.Values.{values_of};
ghost use Rattle.flow_mask.specs.Masks.{each_and};
ghost use Rattle.filter_state.specs.States.{State};
ghost use Rattle.filter_state.specs.Sound.{Sound};
ghost use Rattle.edit_effects.specs.OfEffects.Parts.{Stands, filters_of, words_of};
ghost use Rattle.walk_rules.specs.Questions.{filter_of};
ghost use Rattle.walk_rules.specs.Answers.{answer_of};
ghost use Rattle.edit_effects.specs.OfMaskAnswers.Searched.{IsSearched, searched_told};

/// A search of the filters of a mask that stands for a frame's words under the mask gives the state's answer
/// for that frame, whatever the table.
pub fn searches_answer()
    ensures { (s : State) (mask table : ℕ) (words : List ℕ) (hit : Bool) (actions : List ℕ)
        → Sound s → Stands s mask → length words ≡ 14
        → IsSearched (filters_of s mask) (each_and words (words_of s mask)) hit actions
        → answer_of s (filter_of table mask (values_of words)) ≡ Some (searched_told hit actions) }
{}
