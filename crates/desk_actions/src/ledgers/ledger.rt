//! The lists of a desk and the writer of its store.

use filter_lists::{Done, Edit, Lists, Prepared};
use hook_store_law::{HookLaw, HookStore};
use pin_store::Writer;
use store_history::EditName;
use store_history::places::MARKER_ROOT;
use tc_base::Point;

/// The plain lists, the writer of the store that follows them, and the number of edits so far. What ties
/// them together is `IsLedger`, which a call asks for and leaves.
#[derive(Drop)]
pub struct Ledger {
    pub lists: Lists,
    pub writer: Writer<HookLaw>,
    pub point: Point,
}

impl Ledger {
    ghost use Rattle.std.specs.Prelude.{◌≡◌, ◌<◌, ◌≤◌, ◌+◌, ◌^◌, ◌∷◌, ◌++◌, [], Ok};
    ghost use Rattle.store_history.specs.declared.places.TheConstants.{ROOTS};
    ghost use Rattle.pin_store.specs.Calls.{sheet_of, IsSeatOf};
    ghost use Rattle.filter_state.specs.Lines.{IsLine};
    ghost use Rattle.filter_state.specs.Steps.{step};
    ghost use Rattle.hook_store_law.specs.OfEdits.Premises.{now, next, IsUnseen};
    ghost use Rattle.desk_actions.specs.OfLedgers.Ledger.{mark_at};
    ghost use Rattle.desk_actions.specs.OfLedgers.Kept.{commits, IsWhole};

    /// Does an edit that was made ready and that no walk can see, and makes its commit, to the marker root.
    /// The commit carries the edit that `E` names, which is the one that was made ready, with the next
    /// number.
    pub fn mark<E: EditName<Edit>>(&mut self, store: &HookStore, prepared: Prepared) -> Done
        requires store { IsSeatOf store.now self.old.writer.place }
        requires shape { ROOTS ≤ store.now.shape.roots }
        requires whole { IsWhole self.old }
        requires ready { self.old.lists ≡ prepared.lists }
        requires edit { (prepared.edit ≡ E.edit) × IsLine E.edit × IsUnseen E.edit }
        requires few { self.old.point + 1 < 2 ^ 32 }
        ensures store { IsSeatOf store.now self.new.writer.place }
        ensures whole { IsWhole self.new }
        ensures point { self.new.point ≡ self.old.point + 1 }
        ensures seen { commits self.new ≡ commits self.old ++ mark_at (self.old.point + 1) E.edit ∷ [] }
        ensures sheet { sheet_of self.new.writer.place ≡ sheet_of self.old.writer.place }
        ensures done { step (now (commits self.old)) E.edit ≡ Ok (next (commits self.old) E.edit, result) }
    {
        let done = self.lists.finish(prepared);
        self.point += 1;
        self.writer
            .commit::<E>(store, MARKER_ROOT, &[], self.point, Some(self.point));
        done
    }
}
