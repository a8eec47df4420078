//! The order of the filters of a state, and that whoever keeps them by table and mask keeps them in it.
//!
//! Filters are shown, and met by packets, on ingress first, then by chain, pref and mask, and those of one
//! mask as they were accepted. A plain state lists them as they were accepted, all in one list, so this order
//! is defined by sorting (`specs/OfOrder/Sorted.antt`, `specs/OfOrder/Rows.antt`). `rows_in_order` says that
//! the tables and masks of a hook hold their rows so, whatever was accepted between them: nothing is sorted
//! at run time.

ghost use Rattle.std.specs.Prelude.{◌≡◌, List};
ghost use Rattle.filter_state.specs.States.{Row};
ghost use Rattle.filter_state.specs.Order.{SameRows};
ghost use Rattle.filter_tables.specs.Rows.{BothHooks, BothWhole, all_rows};
ghost use Rattle.row_laws.specs.OfOrder.Sorted.{sorted};
ghost use Rattle.row_laws.specs.OfOrder.Rows.{row_before};

/// Rows in another order of their masks are sorted alike, and the rows of tables that are kept whole are in
/// order.
pub fn rows_in_order()
    ensures alike { (xs ys : List Row) → SameRows xs ys → sorted row_before xs ≡ sorted row_before ys }
    ensures whole { (both : BothHooks) → BothWhole both → sorted row_before (all_rows both) ≡ all_rows both }
{}
