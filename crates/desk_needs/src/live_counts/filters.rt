//! Filters, masks and rows of buckets after an edit of filters.
ghost use Rattle.std.specs.Prelude.{◌≡◌, ◌≢◌, ◌<◌, ℕ, ◌+◌, eqb, List, Option, Some, None, Ok};
ghost use Rattle.std.specs.List.{IsDistinct};
ghost use Rattle.tc_base.specs.declared.hook.Hook.{Hook};
ghost use Rattle.tc_base.specs.declared.hook.Proto.{Proto};
ghost use Rattle.filter_state.specs.declared.edit.Edit.{Edit};
ghost use Rattle.filter_state.specs.declared.edit.Edit.TheVariants as edits;
ghost use Rattle.filter_state.specs.declared.edit.FilterLine.{FilterLine};
ghost use Rattle.filter_state.specs.declared.refusal.Done.{Done};
ghost use Rattle.filter_state.specs.declared.refusal.Done.TheVariants as dones;
ghost use Rattle.filter_state.specs.States.{Row, State};
ghost use Rattle.filter_state.specs.Sound.{Sound};
ghost use Rattle.filter_state.specs.Tables.{mask_row, mask_or_next, filter_row};
ghost use Rattle.filter_state.specs.Steps.{step, pref_for};
ghost use Rattle.hook_store_law.specs.OfEffects.Parts.{Stands};
ghost use Rattle.hook_law.specs.Standing.{IsIn};
ghost use Rattle.hook_store_law.specs.OfEdits.Premises.{IsAddOf, named_row};
ghost use Rattle.desk_needs.specs.Live.{count_of};
ghost use Rattle.desk_needs.specs.OfLiveCounts.Counts.{StayAsMany, FilterComes, MaskComes, FilterMoves};
ghost use Rattle.desk_needs.specs.OfLiveCounts.Counts.{FilterGoes, MasksGo};

/// A filter that is added comes into a mask that stands, or with a mask of its own. The pref is that of the
/// answer, or the one to which the line leads.
pub fn counts_of_adds()
    ensures into_mask { (s t : State) (y : Edit) (line : FilterLine) (pref handle : ℕ) (serials : List ℕ)
        (row : Row) → Sound s → IsAddOf s line y → step s y ≡ Ok (t, dones.Filter pref handle serials)
        → mask_row line.hook line.chain pref line.mask.words s.rows ≡ Some row
        → FilterComes s t (count_of s row.mask_serial) }
    ensures with_mask { (s t : State) (y : Edit) (line : FilterLine) (pref handle : ℕ) (serials : List ℕ)
        → Sound s → IsAddOf s line y → step s y ≡ Ok (t, dones.Filter pref handle serials)
        → mask_row line.hook line.chain pref line.mask.words s.rows ≡ None → MaskComes s t }
    ensures into_mask_led { (s t : State) (y : Edit) (line : FilterLine) (pref : ℕ) (done : Done) (row : Row)
        → Sound s → IsAddOf s line y → step s y ≡ Ok (t, done)
        → pref_for s line.hook line.chain line.pref ≡ Ok pref
        → mask_row line.hook line.chain pref line.mask.words s.rows ≡ Some row
        → FilterComes s t (count_of s row.mask_serial) }
    ensures with_mask_led { (s t : State) (y : Edit) (line : FilterLine) (done : Done) → Sound s
        → IsAddOf s line y → step s y ≡ Ok (t, done)
        → ((pref : ℕ) → pref_for s line.hook line.chain line.pref ≡ Ok pref
        → mask_row line.hook line.chain pref line.mask.words s.rows ≡ None) → MaskComes s t }
{}

/// A filter that is replaced with the same mask changes no number. With another one it moves, to the line's
/// mask in its table, or to a new one, which has no filter before.
pub fn counts_of_replaces()
    ensures same_mask { (s t : State) (line : FilterLine) (done : Done) (row : Row) → Sound s
        → step s (edits.FilterReplace line) ≡ Ok (t, done) → named_row s line ≡ Some row
        → row.mask ≡ line.mask.words → StayAsMany s t }
    ensures other_mask { (s t : State) (line : FilterLine) (done : Done) (row : Row) (target : ℕ) → Sound s
        → step s (edits.FilterReplace line) ≡ Ok (t, done) → named_row s line ≡ Some row
        → row.mask ≢ line.mask.words
        → target ≡ mask_or_next (mask_row line.hook line.chain row.pref line.mask.words s.rows) s.masks_made
        → FilterMoves s t (count_of s row.mask_serial) (count_of s target) }
    ensures new_mask { (s : State) → Sound s → count_of s (s.masks_made + 1) ≡ 0 }
{}

/// A filter that is deleted leaves its mask, or takes it with it where it is the last one, as a table takes
/// all its masks. `gone` is the masks that stood before and don't after, each once.
pub fn counts_of_removals()
    ensures from_mask { (s t : State) (hook : Hook) (protocol : Option Proto) (chain pref handle : ℕ)
        (done : Done) (row : Row) → Sound s
        → step s (edits.FilterDel hook protocol chain pref (Some handle)) ≡ Ok (t, done)
        → filter_row hook chain pref handle s.rows ≡ Some row → 1 < count_of s row.mask_serial
        → FilterGoes s t (count_of s row.mask_serial) }
    ensures last_of_mask { (s t : State) (hook : Hook) (protocol : Option Proto) (chain pref handle : ℕ)
        (done : Done) (row : Row) (gone : List ℕ) → Sound s
        → step s (edits.FilterDel hook protocol chain pref (Some handle)) ≡ Ok (t, done)
        → filter_row hook chain pref handle s.rows ≡ Some row → count_of s row.mask_serial ≡ 1
        → IsDistinct eqb gone → ((mask : ℕ) → IsIn mask gone → Stands s mask × (Stands t mask → ⊥))
        → ((mask : ℕ) → Stands s mask → (Stands t mask → ⊥) → IsIn mask gone) → MasksGo s t gone }
    ensures table { (s t : State) (hook : Hook) (protocol : Option Proto) (chain pref : ℕ) (done : Done)
        (gone : List ℕ) → Sound s → step s (edits.FilterDel hook protocol chain pref None) ≡ Ok (t, done)
        → IsDistinct eqb gone → ((mask : ℕ) → IsIn mask gone → Stands s mask × (Stands t mask → ⊥))
        → ((mask : ℕ) → Stands s mask → (Stands t mask → ⊥) → IsIn mask gone) → MasksGo s t gone }
{}
