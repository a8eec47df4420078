//! What edits change of slots, and what is found there.
ghost use Rattle.std.specs.Prelude.{◌≡◌, ◌&&◌, ℕ, List, [], ◌∷◌, ◌++◌, map, filter, Option, Some, None, Ok};
ghost use Rattle.std.specs.Prelude.{unwrap_or, if◌then◌else◌};
ghost use Rattle.std.specs.List.{list_any};
ghost use Rattle.std.specs.Str.{bytes_eq};
ghost use Rattle.tc_base.specs.declared.hook.Hook.{Hook};
ghost use Rattle.tc_base.specs.declared.hook.Proto.{Proto};
ghost use Rattle.filter_state.specs.declared.edit.Edit.TheVariants as edits;
ghost use Rattle.filter_state.specs.declared.edit.FilterLine.{FilterLine};
ghost use Rattle.filter_state.specs.declared.refusal.Done.{Done};
ghost use Rattle.filter_state.specs.Lines.{IsLine};
ghost use Rattle.filter_state.specs.States.{Row, State};
ghost use Rattle.filter_state.specs.Sound.{Sound};
ghost use Rattle.filter_state.specs.Tables.{in_table, has_handle, filter_row};
ghost use Rattle.filter_state.specs.Steps.{step, row_of, mask_serial_for};
ghost use Rattle.edit_effects.specs.OfEffects.Parts.{filters_of};
ghost use Rattle.edit_effects.specs.OfEffects.Effects.{KeepsFilters};
ghost use Rattle.edit_effects.specs.OfMaskAnswers.Searched.{IsSearched};
ghost use Rattle.state_past_laws.specs.Slots.{SlotChange, Overrides, AreTaken, slot_in, is_taken, actions_in};
ghost use Rattle.state_past_laws.specs.Slots.{concerns, put_there, taken_there, moved_there};

/// An added filter changes its own slot, deleted filters theirs. A replaced filter changes its slot, or
/// leaves it for another where the line has another mask or key.
pub fn edits_change_slots()
    ensures added { (s t : State) (line : FilterLine) (done : Done) → Sound s → IsLine (edits.FilterAdd line)
        → step s (edits.FilterAdd line) ≡ Ok (t, done)
        → (row : Row) × (t.rows ≡ s.rows ++ (row ∷ [])) × Overrides s.rows t.rows (put_there row ∷ []) }
    ensures table { (s t : State) (hook : Hook) (protocol : Option Proto) (chain pref : ℕ) (done : Done)
        → Sound s → step s (edits.FilterDel hook protocol chain pref None) ≡ Ok (t, done)
        → Overrides s.rows t.rows (map taken_there (filter (in_table hook chain pref) s.rows)) }
    ensures one { (s t : State) (hook : Hook) (protocol : Option Proto) (chain pref handle : ℕ) (done : Done)
        → Sound s → step s (edits.FilterDel hook protocol chain pref (Some handle)) ≡ Ok (t, done)
        → Overrides s.rows t.rows (map taken_there
        (filter (λ row. in_table hook chain pref row && has_handle handle row) s.rows)) }
    ensures replaced { (s t : State) (line : FilterLine) (old : Row) (done : Done) → Sound s
        → IsLine (edits.FilterReplace line)
        → filter_row line.hook line.chain (unwrap_or line.pref 0) (unwrap_or line.handle 0) s.rows ≡ Some old
        → step s (edits.FilterReplace line) ≡ Ok (t, done)
        → (serials : List ℕ) × Overrides s.rows t.rows (moved_there old
        (row_of line old.pref old.table (mask_serial_for s line old) old.handle serials) serials
        (bytes_eq old.mask line.mask.words && bytes_eq old.key line.key.words)) }
{}

/// Changes that take away leave nothing where one of them is concerned, and everything elsewhere: in
/// whichever order they stand, and however often.
pub fn taken_slots()
    ensures { (rows others : List Row) (changes : List SlotChange) → AreTaken changes
        → Overrides rows others changes → (mask : ℕ) (key : List ℕ)
        → slot_in others mask key
        ≡ (if list_any (concerns mask key) changes then None else slot_in rows mask key) }
{}

/// An edit that keeps the filters of all masks changes no slot.
pub fn kept_slots()
    ensures { (s t : State) → KeepsFilters s t → (mask : ℕ) (key : List ℕ)
        → slot_in t.rows mask key ≡ slot_in s.rows mask key }
{}

/// What stands in a slot is found by a search of the mask's filters for the key.
pub fn slots_answer_searches()
    ensures { (s : State) (mask : ℕ) (key : List ℕ)
        → IsSearched (filters_of s mask) key (is_taken (slot_in s.rows mask key))
        (actions_in (slot_in s.rows mask key)) }
{}
