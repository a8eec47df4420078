//! What is asked of rows, asked of the tables that spell them.
//!
//! An edit is refused for what flat rows say, and tables are kept as lists in lists, where a question goes
//! straight to one table and one mask. Each law here takes one question on the rows, and answers it from the
//! table of its chain and pref, found once.
//!
//! The laws take for granted that the tables are whole, and where they say so, that their rows go together as
//! those of a sound state do.

ghost use Rattle.std.specs.Prelude.{◌≡◌, ℕ, ◌==◌, ◌&&◌, not, true, false, List, [], length, filter, find};
ghost use Rattle.std.specs.Prelude.{Option, Some, None, option_map, is_some};
ghost use Rattle.std.specs.List.{list_any};
ghost use Rattle.tc_base.specs.declared.hook.Hook.{Hook};
ghost use Rattle.filter_state.specs.Sound.{EachPair, GoTogether};
ghost use Rattle.filter_state.specs.Tables.{in_chain, in_table, has_handle, has_match, first_where};
ghost use Rattle.filter_state.specs.Tables.{lowest_pref, table_count, mask_count, free_handle, table_or_next};
ghost use Rattle.filter_state.specs.Tables.{mask_or_next, table_row, mask_row, filter_row};
ghost use Rattle.filter_state.specs.Refusals.{is_left_out};
ghost use Rattle.filter_index.specs.declared.filter.Filter.{Filter};
ghost use Rattle.filter_index.specs.Listed as listed;
ghost use Rattle.filter_tables.specs.Plain.{PlainMask, PlainTable};
ghost use Rattle.filter_tables.specs.Places.{item_at, place_where};
ghost use Rattle.filter_tables.specs.Changes.{has_words, any_handle, is_table, IsLowestFree};
ghost use Rattle.filter_tables.specs.Rows.{BothHooks, tables_on, row_of, rows_of_table, all_rows, BothWhole};
ghost use Rattle.row_laws.specs.OfLookups.Asked.{unless_left_out};

/// The rows of a table's chain and pref are those that the table spells.
pub fn table_rows()
    ensures some { (both : BothHooks) (hook : Hook) (place : ℕ) (table : PlainTable) → BothWhole both
        → item_at (tables_on hook both) place ≡ Some table →
        filter (in_table hook table.chain table.pref) (all_rows both) ≡ rows_of_table hook table }
    ensures none { (both : BothHooks) (hook : Hook) (chain pref : ℕ)
        → list_any (is_table chain pref) (tables_on hook both) ≡ false →
        filter (in_table hook chain pref) (all_rows both) ≡ [] }
    ensures any { (both : BothHooks) (hook : Hook) (chain pref : ℕ) → BothWhole both →
        list_any (in_table hook chain pref) (all_rows both)
        ≡ list_any (is_table chain pref) (tables_on hook both) }
{}

/// The table of a row, its protocol, and how many tables a hook has.
pub fn table_of_rows()
    ensures protocol { (both : BothHooks) (hook : Hook) (place : ℕ) (table : PlainTable) → BothWhole both
        → item_at (tables_on hook both) place ≡ Some table →
        option_map (λ row. row.protocol) (table_row hook table.chain table.pref (all_rows both))
        ≡ Some table.protocol }
    ensures serial { (both : BothHooks) (hook : Hook) (place made : ℕ) (table : PlainTable) → BothWhole both
        → item_at (tables_on hook both) place ≡ Some table →
        table_or_next (table_row hook table.chain table.pref (all_rows both)) made ≡ table.serial }
    ensures none { (both : BothHooks) (hook : Hook) (chain pref : ℕ)
        → list_any (is_table chain pref) (tables_on hook both) ≡ false →
        table_row hook chain pref (all_rows both) ≡ None }
    ensures count { (both : BothHooks) (hook : Hook) → BothWhole both → EachPair GoTogether (all_rows both)
        → table_count hook (all_rows both) ≡ length (tables_on hook both) }
    ensures lowest { (both : BothHooks) (hook : Hook) (chain : ℕ) → BothWhole both →
        lowest_pref (filter (in_chain hook chain) (all_rows both))
        ≡ option_map (λ (t : PlainTable). t.pref)
        (find (λ (t : PlainTable). t.chain == chain) (tables_on hook both)) }
{}

/// The mask of a row, and how many masks a table has.
pub fn mask_of_rows()
    ensures serial { (both : BothHooks) (hook : Hook) (place at made : ℕ) (words : List ℕ)
        (table : PlainTable) (mask : PlainMask) →
        BothWhole both → EachPair GoTogether (all_rows both) → item_at (tables_on hook both) place
        ≡ Some table →
        place_where (has_words words) table.masks ≡ Some at → item_at table.masks at ≡ Some mask →
        mask_or_next (mask_row hook table.chain table.pref words (all_rows both)) made ≡ mask.serial }
    ensures some { (both : BothHooks) (hook : Hook) (place : ℕ) (words : List ℕ) (table : PlainTable)
        → BothWhole both → item_at (tables_on hook both) place ≡ Some table →
        is_some (mask_row hook table.chain table.pref words (all_rows both))
        ≡ is_some (place_where (has_words words) table.masks) }
    ensures none { (both : BothHooks) (hook : Hook) (chain pref : ℕ) (words : List ℕ)
        → list_any (is_table chain pref) (tables_on hook both) ≡ false →
        mask_row hook chain pref words (all_rows both) ≡ None }
    ensures count { (both : BothHooks) (hook : Hook) (place : ℕ) (table : PlainTable) → BothWhole both
        → item_at (tables_on hook both) place ≡ Some table →
        mask_count hook table.chain table.pref (all_rows both) ≡ length table.masks }
{}

/// The filter of a handle, and the handles that are free.
pub fn filter_of_rows()
    ensures any { (both : BothHooks) (hook : Hook) (place handle : ℕ) (table : PlainTable) → BothWhole both
        → item_at (tables_on hook both) place ≡ Some table →
        list_any (λ row. in_table hook table.chain table.pref row && has_handle handle row) (all_rows both)
        ≡ any_handle handle table.masks }
    ensures none { (both : BothHooks) (hook : Hook) (chain pref handle : ℕ)
        → list_any (is_table chain pref) (tables_on hook both) ≡ false →
        list_any (λ row. in_table hook chain pref row && has_handle handle row) (all_rows both) ≡ false }
    ensures row { (both : BothHooks) (hook : Hook) (place at handle : ℕ) (table : PlainTable)
        (mask : PlainMask) (f : Filter) →
        BothWhole both → EachPair GoTogether (all_rows both) → item_at (tables_on hook both) place
        ≡ Some table → item_at table.masks at ≡ Some mask →
        find (listed.has_handle handle) mask.filters ≡ Some f →
        filter_row hook table.chain table.pref handle (all_rows both) ≡ Some (row_of hook table mask f) }
    ensures missing { (both : BothHooks) (hook : Hook) (place handle : ℕ) (table : PlainTable)
        → BothWhole both → item_at (tables_on hook both) place ≡ Some table →
        any_handle handle table.masks ≡ false → filter_row hook table.chain table.pref handle (all_rows both)
        ≡ None }
    ensures no_row { (both : BothHooks) (hook : Hook) (chain pref handle : ℕ)
        → list_any (is_table chain pref) (tables_on hook both) ≡ false →
        filter_row hook chain pref handle (all_rows both) ≡ None }
    ensures free { (both : BothHooks) (hook : Hook) (place handle : ℕ) (table : PlainTable) → BothWhole both
        → item_at (tables_on hook both) place ≡ Some table →
        IsLowestFree table.masks handle → free_handle hook table.chain table.pref (all_rows both) ≡ handle }
    ensures first { (both : BothHooks) (hook : Hook) (chain pref : ℕ)
        → list_any (is_table chain pref) (tables_on hook both) ≡ false →
        free_handle hook chain pref (all_rows both) ≡ 1 }
{}

/// The filter of a table that has a mask and a key, where it isn't the one to be left out.
pub fn match_of_rows()
    ensures some { (both : BothHooks) (hook : Hook) (place at : ℕ) (left : Option ℕ) (words key : List ℕ)
        (table : PlainTable) (mask : PlainMask) →
        BothWhole both → EachPair GoTogether (all_rows both) → item_at (tables_on hook both) place
        ≡ Some table →
        place_where (has_words words) table.masks ≡ Some at → item_at table.masks at ≡ Some mask →
        option_map (λ row. row.handle) (first_where (λ row. in_table hook table.chain table.pref row
        && (has_match words key row && not (is_left_out left row))) (all_rows both))
        ≡ unless_left_out left (find (listed.has_key key) mask.filters) }
    ensures none { (both : BothHooks) (hook : Hook) (place : ℕ) (left : Option ℕ) (words key : List ℕ)
        (table : PlainTable) →
        BothWhole both → item_at (tables_on hook both) place ≡ Some table
        → place_where (has_words words) table.masks ≡ None →
        first_where (λ row. in_table hook table.chain table.pref row
        && (has_match words key row && not (is_left_out left row))) (all_rows both) ≡ None }
    ensures no_table { (both : BothHooks) (hook : Hook) (chain pref : ℕ) (left : Option ℕ)
        (words key : List ℕ) → list_any (is_table chain pref) (tables_on hook both) ≡ false →
        first_where (λ row. in_table hook chain pref row
        && (has_match words key row && not (is_left_out left row))) (all_rows both) ≡ None }
{}
