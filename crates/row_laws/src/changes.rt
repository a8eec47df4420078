//! What a change of tables does to the rows that they spell.
//!
//! Tables are kept as lists in lists, and what an edit means is said of flat rows. Each law here takes one
//! change of the nested lists and says what has become of the rows: a filter put anywhere is a row more at
//! the end, but for the order between rows of different masks, and a filter taken out, or given other
//! actions, is that change of the rows themselves. After each the tables are whole again: none is empty, nor
//! any mask, and all stand in their order.
//!
//! The laws take for granted that the tables are whole, and that their rows go together as those of a sound
//! state do.

ghost use Rattle.std.specs.Prelude.{◌≡◌, ℕ, ◌<◌, ◌==◌, ◌&&◌, not, true, false, List, [], ◌∷◌, ◌++◌, filter};
ghost use Rattle.std.specs.Prelude.{find, Some};
ghost use Rattle.std.specs.List.{list_any};
ghost use Rattle.tc_base.specs.declared.hook.Hook.{Hook};
ghost use Rattle.filter_state.specs.States.{Row};
ghost use Rattle.filter_state.specs.Sound.{Each, EachPair, GoTogether};
ghost use Rattle.filter_state.specs.Tables.{in_table, has_handle};
ghost use Rattle.filter_state.specs.Steps.{with_new_actions, without_row};
ghost use Rattle.filter_state.specs.Order.{SameRows};
ghost use Rattle.filter_index.specs.declared.filter.Filter.{Filter};
ghost use Rattle.filter_index.specs.Listed as listed;
ghost use Rattle.filter_tables.specs.Plain.{PlainMask, PlainTable};
ghost use Rattle.filter_tables.specs.Places.{item_at, change_at, without_at};
ghost use Rattle.filter_tables.specs.Changes.{more_filter, new_mask, other_actions, moved, moved_out};
ghost use Rattle.filter_tables.specs.Changes.{in_masks, removed, with_table, is_table};
ghost use Rattle.filter_tables.specs.Rows.{BothHooks, tables_on, on_hook, row_of, rows_of_table, all_rows};
ghost use Rattle.filter_tables.specs.Rows.{BothWhole};

/// A filter more in a mask that is there is a row more.
pub fn filter_put()
    ensures rows { (both : BothHooks) (hook : Hook) (place at : ℕ) (table : PlainTable) (mask : PlainMask)
        (f : Filter) →
        BothWhole both → EachPair GoTogether (all_rows both) → item_at (tables_on hook both) place
        ≡ Some table → item_at table.masks at ≡ Some mask →
        SameRows (all_rows (on_hook hook (change_at place (in_masks (change_at at (more_filter f)))) both))
        (all_rows both ++ (row_of hook table mask f ∷ [])) }
    ensures whole { (both : BothHooks) (hook : Hook) (place at : ℕ) (f : Filter) → BothWhole both
        → BothWhole (on_hook hook (change_at place (in_masks (change_at at (more_filter f)))) both) }
{}

/// A mask more with its first filter, behind the others of a table, is a row more.
pub fn mask_put()
    ensures rows { (both : BothHooks) (hook : Hook) (place serial : ℕ) (words : List ℕ) (table : PlainTable)
        (f : Filter) →
        BothWhole both → Each (λ (row : Row). row.mask_serial < serial) (all_rows both)
        → item_at (tables_on hook both) place ≡ Some table →
        SameRows (all_rows
        (on_hook hook (change_at place (in_masks (λ masks. masks ++ (new_mask serial words f ∷ [])))) both))
        (all_rows both ++ (row_of hook table (new_mask serial words f) f ∷ [])) }
    ensures whole { (both : BothHooks) (hook : Hook) (place serial : ℕ) (words : List ℕ) (f : Filter) →
        BothWhole both → Each (λ (row : Row). row.mask_serial < serial) (all_rows both) →
        BothWhole
        (on_hook hook (change_at place (in_masks (λ masks. masks ++ (new_mask serial words f ∷ [])))) both) }
{}

/// A table more with its first mask and filter is a row more.
pub fn table_put()
    ensures rows { (both : BothHooks) (hook : Hook) (serial : ℕ) (words : List ℕ) (table : PlainTable)
        (f : Filter) →
        BothWhole both → Each (λ (row : Row). row.mask_serial < serial) (all_rows both)
        → table.masks ≡ new_mask serial words f ∷ [] →
        SameRows (all_rows (on_hook hook (with_table table) both))
        (all_rows both ++ (row_of hook table (new_mask serial words f) f ∷ [])) }
    ensures whole { (both : BothHooks) (hook : Hook) (serial : ℕ) (words : List ℕ) (table : PlainTable)
        (f : Filter) →
        BothWhole both → table.masks ≡ new_mask serial words f ∷ []
        → list_any (is_table table.chain table.pref) (tables_on hook both) ≡ false →
        BothWhole (on_hook hook (with_table table) both) }
{}

/// A filter taken out is its row taken out, and it is the one row of its table with its handle.
pub fn filter_taken()
    ensures rows { (both : BothHooks) (hook : Hook) (place at handle : ℕ) (table : PlainTable)
        (mask : PlainMask) (f : Filter) →
        BothWhole both → EachPair GoTogether (all_rows both) → item_at (tables_on hook both) place
        ≡ Some table → item_at table.masks at ≡ Some mask →
        find (listed.has_handle handle) mask.filters ≡ Some f →
        all_rows (on_hook hook (removed place at handle) both)
        ≡ filter (λ row. not (in_table hook table.chain table.pref row && has_handle handle row))
        (all_rows both) }
    ensures gone { (both : BothHooks) (hook : Hook) (place at handle : ℕ) (table : PlainTable)
        (mask : PlainMask) (f : Filter) →
        BothWhole both → EachPair GoTogether (all_rows both) → item_at (tables_on hook both) place
        ≡ Some table → item_at table.masks at ≡ Some mask →
        find (listed.has_handle handle) mask.filters ≡ Some f →
        filter (λ row. in_table hook table.chain table.pref row && has_handle handle row) (all_rows both)
        ≡ row_of hook table mask f ∷ [] }
    ensures whole { (both : BothHooks) (hook : Hook) (place at handle : ℕ) → BothWhole both
        → BothWhole (on_hook hook (removed place at handle) both) }
{}

/// A table taken out is its rows taken out.
pub fn table_taken()
    ensures rows { (both : BothHooks) (hook : Hook) (place : ℕ) (table : PlainTable) →
        BothWhole both → item_at (tables_on hook both) place ≡ Some table →
        all_rows (on_hook hook (without_at place) both)
        ≡ filter (λ row. not (in_table hook table.chain table.pref row)) (all_rows both) }
    ensures gone { (both : BothHooks) (hook : Hook) (place : ℕ) (table : PlainTable) →
        BothWhole both → item_at (tables_on hook both) place ≡ Some table →
        filter (in_table hook table.chain table.pref) (all_rows both) ≡ rows_of_table hook table }
    ensures whole { (both : BothHooks) (hook : Hook) (place : ℕ) → BothWhole both
        → BothWhole (on_hook hook (without_at place) both) }
{}

/// Other actions of a filter are those of its row.
pub fn actions_put()
    ensures rows { (both : BothHooks) (hook : Hook) (place at handle : ℕ) (serials : List ℕ)
        (table : PlainTable) (mask : PlainMask) (f : Filter) →
        BothWhole both → EachPair GoTogether (all_rows both) → item_at (tables_on hook both) place
        ≡ Some table → item_at table.masks at ≡ Some mask →
        find (listed.has_handle handle) mask.filters ≡ Some f →
        all_rows (on_hook hook (change_at place (in_masks (change_at at (other_actions handle serials))))
        both)
        ≡ with_new_actions (row_of hook table mask f) serials (all_rows both) }
    ensures whole { (both : BothHooks) (hook : Hook) (place at handle : ℕ) (serials : List ℕ) →
        BothWhole both
        → BothWhole
        (on_hook hook (change_at place (in_masks (change_at at (other_actions handle serials)))) both) }
{}

/// A filter that leaves its place for the end of a mask that is there is a row taken out and a row more.
pub fn filter_moved()
    ensures rows { (both : BothHooks) (hook : Hook) (place from to : ℕ) (table : PlainTable)
        (mask other : PlainMask) (old new : Filter) →
        BothWhole both → EachPair GoTogether (all_rows both) → item_at (tables_on hook both) place
        ≡ Some table → item_at table.masks from ≡ Some mask →
        find (listed.has_handle new.handle) mask.filters ≡ Some old → item_at table.masks to ≡ Some other →
        SameRows (all_rows (on_hook hook (change_at place (in_masks (moved from to new))) both))
        (without_row (row_of hook table mask old) (all_rows both) ++ (row_of hook table other new ∷ [])) }
    ensures whole { (both : BothHooks) (hook : Hook) (place from to : ℕ) (table : PlainTable)
        (other : PlainMask) (new : Filter) → BothWhole both →
        item_at (tables_on hook both) place ≡ Some table → item_at table.masks to ≡ Some other →
        BothWhole (on_hook hook (change_at place (in_masks (moved from to new))) both) }
{}

/// A filter that leaves its place for a new mask is a row taken out and a row more.
pub fn filter_moved_out()
    ensures rows { (both : BothHooks) (hook : Hook) (place from serial : ℕ) (words : List ℕ)
        (table : PlainTable) (mask : PlainMask) (old new : Filter) →
        BothWhole both → EachPair GoTogether (all_rows both)
        → Each (λ (row : Row). row.mask_serial < serial) (all_rows both) →
        item_at (tables_on hook both) place ≡ Some table → item_at table.masks from ≡ Some mask
        → find (listed.has_handle new.handle) mask.filters ≡ Some old →
        SameRows (all_rows (on_hook hook (change_at place (in_masks (moved_out from serial words new))) both))
        (without_row (row_of hook table mask old) (all_rows both)
        ++ (row_of hook table (new_mask serial words new) new ∷ [])) }
    ensures whole { (both : BothHooks) (hook : Hook) (place from serial : ℕ) (words : List ℕ) (new : Filter) →
        BothWhole both → Each (λ (row : Row). row.mask_serial < serial) (all_rows both) →
        BothWhole (on_hook hook (change_at place (in_masks (moved_out from serial words new))) both) }
{}
