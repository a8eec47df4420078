//! Pasts that tell a longer journal.
ghost use Rattle.std.specs.Prelude.{◌≡◌, ◌+◌, List, [], ◌∷◌, ◌++◌, length, Option, Some};
ghost use Rattle.filter_state.specs.declared.edit.Edit.{Edit};
ghost use Rattle.filter_state.specs.States.{State, no_state};
ghost use Rattle.filter_state.specs.Journals.{state_from};
ghost use Rattle.slot_pasts.specs.declared.past.Change.{Change};
ghost use Rattle.state_past_laws.specs.Telling.{Tells};

/// With one edit more a past tells the journal as it is, where the edit leaves its part; and with what the
/// state after the edit has there put behind it, from the point after the edit on. It may be put again.
pub fn pasts_are_extended<V, W>()
    ensures stays { (has : State → W) (read : Option V → W) (past : List (Change V))
        (journal : List Edit) (edit : Edit) → Tells has read past journal
        → has (state_from no_state (journal ++ (edit ∷ []))) ≡ has (state_from no_state journal)
        → Tells has read past (journal ++ (edit ∷ [])) }
    ensures comes { (has : State → W) (read : Option V → W) (past : List (Change V))
        (journal : List Edit) (edit : Edit) (value : V) → Tells has read past journal
        → read (Some value) ≡ has (state_from no_state (journal ++ (edit ∷ [])))
        → Tells has read (past ++ (record { from = length journal + 1; value = value } ∷ []))
        (journal ++ (edit ∷ [])) }
    ensures again { (has : State → W) (read : Option V → W) (past : List (Change V))
        (journal : List Edit) (edit : Edit) (value : V) → Tells has read past (journal ++ (edit ∷ []))
        → read (Some value) ≡ has (state_from no_state (journal ++ (edit ∷ [])))
        → Tells has read (past ++ (record { from = length journal + 1; value = value } ∷ []))
        (journal ++ (edit ∷ [])) }
{}
