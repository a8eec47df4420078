//! What the lists answer to a line of filters.
ghost use Rattle.std.specs.Prelude.{◌≡◌, ◌≢◌, ◌⊎◌, ℕ, ◌+◌, List, Some, None};
ghost use Rattle.store_history.specs.declared.history.Commit.{Commit};
ghost use Rattle.filter_state.specs.declared.edit.Edit.{Edit};
ghost use Rattle.filter_state.specs.declared.edit.Edit.TheVariants as edits;
ghost use Rattle.filter_state.specs.declared.edit.FilterLine.{FilterLine};
ghost use Rattle.filter_state.specs.declared.refusal.Done.{Done};
ghost use Rattle.filter_state.specs.declared.refusal.Done.TheVariants as dones;
ghost use Rattle.filter_state.specs.States.{Row, State};
ghost use Rattle.filter_state.specs.Tables.{mask_row, mask_or_next};
ghost use Rattle.hook_law.specs.Standing.{IsIn};
ghost use Rattle.hook_store_law.specs.Stated.{filters_at};
ghost use Rattle.hook_store_law.specs.OfEdits.Premises.{now, next, IsAccepted, IsAddOf, named_row, filter_of_line};

/// An accepted edit that adds or replaces a filter is answered by the filter.
pub fn lines_of_filters_answer()
    ensures { (h : List (Commit Edit)) (b : ℕ) (y : Edit) (t : State) (line : FilterLine) (done : Done)
        → IsAccepted h b y t done → (y ≡ edits.FilterAdd line) ⊎ (y ≡ edits.FilterReplace line)
        → (pref : ℕ) × (handle : ℕ) × (serials : List ℕ) × (done ≡ dones.Filter pref handle serials) }
{}

/// The filter that the lists answered stands in the state to which the edit leads: in the mask to which it
/// was added, which stood or is new, in the mask of the one that it replaces, or in another mask.
pub fn answered_filters_stand()
    ensures added { (h : List (Commit Edit)) (b : ℕ) (y : Edit) (t : State) (line : FilterLine)
        (pref handle : ℕ) (serials : List ℕ) (row : Row)
        → IsAccepted h b y t (dones.Filter pref handle serials) → IsAddOf (now h) line y
        → mask_row line.hook line.chain pref line.mask.words (now h).rows ≡ Some row
        → IsIn (filter_of_line line handle serials) (filters_at (next h y) row.mask_serial) }
    ensures with_mask { (h : List (Commit Edit)) (b : ℕ) (y : Edit) (t : State) (line : FilterLine)
        (pref handle : ℕ) (serials : List ℕ)
        → IsAccepted h b y t (dones.Filter pref handle serials) → IsAddOf (now h) line y
        → mask_row line.hook line.chain pref line.mask.words (now h).rows ≡ None
        → IsIn (filter_of_line line handle serials) (filters_at (next h y) ((now h).masks_made + 1)) }
    ensures same_key { (h : List (Commit Edit)) (b : ℕ) (t : State) (line : FilterLine) (pref handle : ℕ)
        (serials : List ℕ) (row : Row)
        → IsAccepted h b (edits.FilterReplace line) t (dones.Filter pref handle serials)
        → named_row (now h) line ≡ Some row → row.mask ≡ line.mask.words → row.key ≡ line.key.words
        → IsIn (filter_of_line line handle serials)
        (filters_at (next h (edits.FilterReplace line)) row.mask_serial) }
    ensures other_key { (h : List (Commit Edit)) (b : ℕ) (t : State) (line : FilterLine) (pref handle : ℕ)
        (serials : List ℕ) (row : Row)
        → IsAccepted h b (edits.FilterReplace line) t (dones.Filter pref handle serials)
        → named_row (now h) line ≡ Some row → row.mask ≡ line.mask.words → row.key ≢ line.key.words
        → IsIn (filter_of_line line handle serials)
        (filters_at (next h (edits.FilterReplace line)) row.mask_serial) }
    ensures other_mask { (h : List (Commit Edit)) (b : ℕ) (t : State) (line : FilterLine) (pref handle : ℕ)
        (serials : List ℕ) (row : Row)
        → IsAccepted h b (edits.FilterReplace line) t (dones.Filter pref handle serials)
        → named_row (now h) line ≡ Some row → row.mask ≢ line.mask.words
        → IsIn (filter_of_line line handle serials) (filters_at (next h (edits.FilterReplace line))
        (mask_or_next (mask_row line.hook line.chain pref line.mask.words (now h).rows) (now h).masks_made)) }
{}
