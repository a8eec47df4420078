//! A small state, worked out by hand.
ghost use Rattle.std.specs.Prelude.{◌≡◌, [], ◌∷◌, Some, None};
ghost use Rattle.edit_effects.specs.OfEffects.Parts.{filters_of, words_of, params_at, without};
ghost use Rattle.edit_effects.specs.OfEffects.PartCases.{small_state, dropping, filter_with};

/// The filters of a mask are its own, in the order in which they were accepted; what isn't there has none, no
/// words and no parameters.
pub fn worked_parts()
    ensures own { filters_of small_state 1 ≡ filter_with 7 1 ∷ filter_with 9 2 ∷ [] }
    ensures other { filters_of small_state 2 ≡ filter_with 8 1 ∷ [] }
    ensures none { filters_of small_state 3 ≡ [] }
    ensures words { words_of small_state 2 ≡ 15 ∷ [] }
    ensures no_words { words_of small_state 3 ≡ [] }
    ensures live { params_at small_state 3 ≡ Some dropping }
    ensures gone { params_at small_state 1 ≡ None }
    ensures one_left { without 7 (filters_of small_state 1) ≡ filter_with 9 2 ∷ [] }
{}
