//! Pasts that are brought up to a point.
ghost use Rattle.std.specs.Prelude.{◌≡◌, ◌+◌, ℕ, List, [], ◌∷◌, ◌++◌, length, Option, Some};
ghost use Rattle.filter_state.specs.declared.edit.Edit.{Edit};
ghost use Rattle.filter_state.specs.States.{State, no_state};
ghost use Rattle.filter_state.specs.Journals.{state_from};
ghost use Rattle.slot_pasts.specs.declared.past.Change.{Change};
ghost use Rattle.slot_pasts.specs.Pasts.{value_at};
ghost use Rattle.state_past_laws.specs.Telling.{Tells};
ghost use Rattle.state_past_laws.specs.OfChanges.Moving.{GrowsFrom};

/// A past that tells a journal, and grew from the point behind one edit more on, tells the longer journal
/// where it tells the state there. What is put at that point stands there, however often.
pub fn pasts_go_on<V, W>()
    ensures told { (has : State → W) (read : Option V → W) (past after : List (Change V))
        (journal : List Edit) (edit : Edit) → Tells has read past journal
        → GrowsFrom (length journal + 1) past after
        → read (value_at (length journal + 1) after) ≡ has (state_from no_state (journal ++ (edit ∷ [])))
        → Tells has read after (journal ++ (edit ∷ [])) }
    ensures put { (from : ℕ) (value : V) (past after : List (Change V)) → GrowsFrom from past after
        → GrowsFrom from past (after ++ (record { from = from; value = value } ∷ []))
        × (value_at from (after ++ (record { from = from; value = value } ∷ [])) ≡ Some value) }
{}
