//! What holds of each kind of edit of filters.
ghost use Rattle.std.specs.Prelude.{◌≡◌, ◌≢◌, ◌⊎◌, ℕ, ◌+◌, List, [], ◌∷◌, ◌++◌, Option, Some, None};
ghost use Rattle.tc_base.specs.declared.hook.Hook.{Hook};
ghost use Rattle.tc_base.specs.declared.hook.Proto.{Proto};
ghost use Rattle.store_history.specs.declared.history.Commit.{Commit};
ghost use Rattle.filter_state.specs.declared.edit.Edit.{Edit};
ghost use Rattle.filter_state.specs.declared.edit.Edit.TheVariants as edits;
ghost use Rattle.filter_state.specs.declared.edit.FilterLine.{FilterLine};
ghost use Rattle.filter_state.specs.declared.refusal.Done.{Done};
ghost use Rattle.filter_state.specs.declared.refusal.Done.TheVariants as dones;
ghost use Rattle.filter_state.specs.States.{Row, State};
ghost use Rattle.filter_state.specs.Tables.{mask_row, filter_row, mask_or_next};
ghost use Rattle.edit_effects.specs.OfEffects.Parts.{Stands};
ghost use Rattle.hook_law.specs.Changes.{KeepsParams, GainsFilter};
ghost use Rattle.hook_meaning.specs.Stated.{hook_meaning, filters_at};
ghost use Rattle.hook_meaning.specs.OfEdits.Premises.{now, next, IsAccepted, IsOfFilters, IsAddOf, named_row};
ghost use Rattle.hook_meaning.specs.OfEdits.Premises.{NoneComes, NewOnesCome, filter_of_line, without, Swaps};
ghost use Rattle.hook_meaning.specs.OfEdits.Premises.{Loses, LeavesOtherHook, KeepsHeads, IsMask};

/// An edit of filters: live actions keep index and parameters or go, those that come have the serials that it
/// gives, and with a deletion none comes.
pub fn actions_of_filters()
    ensures keeps { (h : List (Commit Edit)) (b : ℕ) (y : Edit) (t : State) (done : Done)
        → IsAccepted h b y t done → IsOfFilters y
        → KeepsParams hook_meaning (now h) (next h y) }
    ensures new_ones { (h : List (Commit Edit)) (b : ℕ) (y : Edit) (t : State) (done : Done)
        → IsAccepted h b y t done → IsOfFilters y
        → NewOnesCome (now h) (next h y) }
    ensures deleted { (h : List (Commit Edit)) (b : ℕ) (hook : Hook) (protocol : Option Proto)
        (chain pref : ℕ) (handle : Option ℕ) (t : State) (done : Done)
        → IsAccepted h b (edits.FilterDel hook protocol chain pref handle) t done
        → NoneComes (now h) (next h (edits.FilterDel hook protocol chain pref handle)) }
{}

/// A filter is added to a mask that stands: it is the last one there.
pub fn filter_added()
    ensures { (h : List (Commit Edit)) (b : ℕ) (y : Edit) (t : State) (line : FilterLine) (pref handle : ℕ)
        (serials : List ℕ) (row : Row)
        → IsAccepted h b y t (dones.Filter pref handle serials) → IsAddOf (now h) line y
        → mask_row line.hook line.chain pref line.mask.words (now h).rows ≡ Some row
        → GainsFilter hook_meaning (now h) (next h y) row.mask_serial (filter_of_line line handle serials) }
{}

/// A filter is replaced by one with the same mask and key: the new one is in its place.
pub fn filter_replaced()
    ensures { (h : List (Commit Edit)) (b : ℕ) (t : State) (line : FilterLine) (pref handle : ℕ)
        (serials : List ℕ) (row : Row)
        → IsAccepted h b (edits.FilterReplace line) t (dones.Filter pref handle serials)
        → named_row (now h) line ≡ Some row
        → row.mask ≡ line.mask.words → row.key ≡ line.key.words
        → Swaps row.mask_serial (filter_of_line line handle serials) (now h)
        (next h (edits.FilterReplace line)) }
{}

/// A filter is deleted, which is there, and its mask has others.
pub fn filter_removed()
    ensures there { (h : List (Commit Edit)) (b : ℕ) (hook : Hook) (protocol : Option Proto)
        (chain pref handle : ℕ) (t : State) (done : Done)
        → IsAccepted h b (edits.FilterDel hook protocol chain pref (Some handle)) t done
        → (row : Row) × (filter_row hook chain pref handle (now h).rows ≡ Some row) }
    ensures leaves { (h : List (Commit Edit)) (b : ℕ) (hook : Hook) (protocol : Option Proto)
        (chain pref handle : ℕ) (t : State) (done : Done) (row : Row)
        → IsAccepted h b (edits.FilterDel hook protocol chain pref (Some handle)) t done
        → filter_row hook chain pref handle (now h).rows ≡ Some row
        → Stands t row.mask_serial
        → Loses row.mask_serial handle (now h)
        (next h (edits.FilterDel hook protocol chain pref (Some handle))) }
{}

/// The other edits of filters, which go to the head of the line's hook. A filter is added with a new mask; it
/// is replaced by one with another key, which comes last in the same mask; by one with another mask, and
/// leaves its own; a filter takes its mask with it; a table is deleted.
pub fn head_changed()
    ensures new_mask { (h : List (Commit Edit)) (b : ℕ) (y : Edit) (t : State) (line : FilterLine)
        (pref handle : ℕ) (serials : List ℕ)
        → IsAccepted h b y t (dones.Filter pref handle serials) → IsAddOf (now h) line y
        → mask_row line.hook line.chain pref line.mask.words (now h).rows ≡ None
        → IsMask ((now h).masks_made + 1) line.mask.words (filter_of_line line handle serials ∷ []) (next h y)
        × LeavesOtherHook line.hook (λ mask. mask ≡ (now h).masks_made + 1) (now h) (next h y)
        × (Stands (now h) ((now h).masks_made + 1) → ⊥) }
    ensures other_key { (h : List (Commit Edit)) (b : ℕ) (t : State) (line : FilterLine) (pref handle : ℕ)
        (serials : List ℕ) (row : Row)
        → IsAccepted h b (edits.FilterReplace line) t (dones.Filter pref handle serials)
        → named_row (now h) line ≡ Some row
        → row.mask ≡ line.mask.words → row.key ≢ line.key.words
        → IsMask row.mask_serial line.mask.words (without handle (filters_at (now h) row.mask_serial)
        ++ filter_of_line line handle serials ∷ []) (next h (edits.FilterReplace line))
        × LeavesOtherHook line.hook (λ mask. mask ≡ row.mask_serial) (now h)
        (next h (edits.FilterReplace line))
        × KeepsHeads (now h) (next h (edits.FilterReplace line)) }
    ensures other_mask { (h : List (Commit Edit)) (b : ℕ) (t : State) (line : FilterLine) (pref handle : ℕ)
        (serials : List ℕ) (row : Row) (mask : ℕ)
        → IsAccepted h b (edits.FilterReplace line) t (dones.Filter pref handle serials)
        → named_row (now h) line ≡ Some row
        → row.mask ≢ line.mask.words
        → mask ≡ mask_or_next (mask_row line.hook line.chain pref line.mask.words (now h).rows)
        (now h).masks_made
        → (mask ≢ row.mask_serial)
        × IsMask mask line.mask.words (filters_at (now h) mask ++ filter_of_line line handle serials ∷ [])
        (next h (edits.FilterReplace line))
        × (Stands t row.mask_serial
        → IsMask row.mask_serial row.mask (without handle (filters_at (now h) row.mask_serial))
        (next h (edits.FilterReplace line)))
        × LeavesOtherHook line.hook (λ other. (other ≡ mask) ⊎ (other ≡ row.mask_serial)) (now h)
        (next h (edits.FilterReplace line))
        × (Stands (now h) mask → Stands t row.mask_serial
        → KeepsHeads (now h) (next h (edits.FilterReplace line))) }
    ensures mask_gone { (h : List (Commit Edit)) (b : ℕ) (hook : Hook) (protocol : Option Proto)
        (chain pref handle : ℕ) (t : State) (done : Done) (row : Row)
        → IsAccepted h b (edits.FilterDel hook protocol chain pref (Some handle)) t done
        → filter_row hook chain pref handle (now h).rows ≡ Some row
        → LeavesOtherHook hook (λ mask. mask ≡ row.mask_serial) (now h)
        (next h (edits.FilterDel hook protocol chain pref (Some handle))) }
    ensures table_gone { (h : List (Commit Edit)) (b : ℕ) (hook : Hook) (protocol : Option Proto)
        (chain pref : ℕ) (t : State) (done : Done)
        → IsAccepted h b (edits.FilterDel hook protocol chain pref None) t done
        → LeavesOtherHook hook (λ mask. (filters_at t mask ≡ [])
        × Stands (now h) mask) (now h) (next h (edits.FilterDel hook protocol chain pref None)) }
{}
