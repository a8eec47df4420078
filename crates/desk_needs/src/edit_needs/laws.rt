//! What edits of filters need.
ghost use Rattle.std.specs.Prelude.{◌≡◌, ◌≢◌, ℕ, ◌+◌, ◌-◌, List, Option, Some, None, Ok};
ghost use Rattle.tc_base.specs.declared.hook.Hook.{Hook};
ghost use Rattle.tc_base.specs.declared.hook.Proto.{Proto};
ghost use Rattle.filter_state.specs.declared.edit.Edit.{Edit};
ghost use Rattle.filter_state.specs.declared.edit.Edit.TheVariants as edits;
ghost use Rattle.filter_state.specs.declared.edit.FilterLine.{FilterLine};
ghost use Rattle.filter_state.specs.declared.refusal.Done.{Done};
ghost use Rattle.filter_state.specs.declared.refusal.Done.TheVariants as dones;
ghost use Rattle.filter_state.specs.States.{Row, State};
ghost use Rattle.filter_state.specs.Sound.{Sound};
ghost use Rattle.filter_state.specs.Tables.{mask_row, mask_or_next, filter_row};
ghost use Rattle.filter_state.specs.Steps.{step};
ghost use Rattle.flow_mask.specs.Sizes.{size_of};
ghost use Rattle.hook_store_law.specs.Stated.{filters_at};
ghost use Rattle.hook_store_law.specs.OfEdits.Premises.{IsAddOf, named_row};
ghost use Rattle.desk_masks.specs.OfFilterCommits.Edits.{HasLater};
ghost use Rattle.desk_needs.specs.Live.{count_of};
ghost use Rattle.desk_needs.specs.Needs.{made, needs_of, nothing, exchanged, later};
ghost use Rattle.desk_needs.specs.OfEditNeeds.Told.{put_into, put_with, moved_to, taken_from};

/// A filter that is added needs the blocks of its actions and its own, and what its mask needs that is laid
/// anew with one filter more; or, with a mask of its own, that mask's block, row and slot and other tables.
pub fn needs_of_adds()
    ensures into_mask { (s t : State) (y : Edit) (line : FilterLine) (pref handle : ℕ) (serials : List ℕ)
        (row : Row) → Sound s → IsAddOf s line y → step s y ≡ Ok (t, dones.Filter pref handle serials)
        → mask_row line.hook line.chain pref line.mask.words s.rows ≡ Some row
        → needs_of s y ≡ put_into (made s t) (count_of s row.mask_serial) }
    ensures with_mask { (s t : State) (y : Edit) (line : FilterLine) (pref handle : ℕ) (serials : List ℕ)
        → Sound s → IsAddOf s line y → step s y ≡ Ok (t, dones.Filter pref handle serials)
        → mask_row line.hook line.chain pref line.mask.words s.rows ≡ None
        → needs_of s y ≡ put_with line.hook (made s t) }
{}

/// A filter that is replaced with the same mask and key needs a block for each later one of its bucket, and
/// its own. With another one, it needs all that the masks concerned have, which are laid anew, and other
/// tables.
pub fn needs_of_replaces()
    ensures same_key { (s t : State) (line : FilterLine) (done : Done) (row : Row) → Sound s
        → step s (edits.FilterReplace line) ≡ Ok (t, done) → named_row s line ≡ Some row
        → row.mask ≡ line.mask.words → row.key ≡ line.key.words
        → needs_of s (edits.FilterReplace line) ≡ exchanged s t row }
    ensures other_key { (s t : State) (line : FilterLine) (done : Done) (row : Row) → Sound s
        → step s (edits.FilterReplace line) ≡ Ok (t, done) → named_row s line ≡ Some row
        → row.mask ≡ line.mask.words → row.key ≢ line.key.words
        → needs_of s (edits.FilterReplace line)
        ≡ moved_to line.hook (made s t) (count_of s row.mask_serial) 0 }
    ensures other_mask { (s t : State) (line : FilterLine) (done : Done) (row : Row) (target : ℕ) → Sound s
        → step s (edits.FilterReplace line) ≡ Ok (t, done) → named_row s line ≡ Some row
        → row.mask ≢ line.mask.words
        → target ≡ mask_or_next (mask_row line.hook line.chain row.pref line.mask.words s.rows) s.masks_made
        → needs_of s (edits.FilterReplace line)
        ≡ moved_to line.hook (made s t) (count_of s target + 1) (count_of s row.mask_serial - 1) }
{}

/// A filter that is deleted needs a block for each later one of its bucket, and what its mask needs that is
/// laid anew with one filter less; where the mask goes, or a whole table, other tables alone.
pub fn needs_of_removals()
    ensures from_mask { (s t : State) (hook : Hook) (protocol : Option Proto) (chain pref handle : ℕ)
        (done : Done) (row : Row) → Sound s
        → step s (edits.FilterDel hook protocol chain pref (Some handle)) ≡ Ok (t, done)
        → filter_row hook chain pref handle s.rows ≡ Some row
        → needs_of s (edits.FilterDel hook protocol chain pref (Some handle)) ≡ taken_from hook s row }
    ensures table { (s t : State) (hook : Hook) (protocol : Option Proto) (chain pref : ℕ) (done : Done)
        → step s (edits.FilterDel hook protocol chain pref None) ≡ Ok (t, done)
        → needs_of s (edits.FilterDel hook protocol chain pref None) ≡ record nothing { head = Some hook } }
{}

/// What is told of the later filters of a bucket, which are written anew where the filter goes or another
/// takes its place, is what is needed for them.
pub fn needs_of_later_filters()
    ensures { (s : State) (hook : Hook) (chain pref handle : ℕ) (row : Row) (count : ℕ) → Sound s
        → filter_row hook chain pref handle s.rows ≡ Some row
        → HasLater (size_of (count_of s row.mask_serial)) row.handle (filters_at s row.mask_serial) count
        → later s row ≡ count }
{}
