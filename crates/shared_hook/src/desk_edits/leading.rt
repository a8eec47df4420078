//! The lists go ahead.
ghost use Rattle.std.specs.Prelude.{◌≡◌, ◌<◌, ◌≤◌, ◌+◌, ◌^◌, ℕ, length, Ok};
ghost use Rattle.store_history.specs.History.{edits_of};
ghost use Rattle.pin_store.specs.Sheets.{IsSameButCells};
ghost use Rattle.pin_store.specs.Calls.{sheet_of, IsSeatOf};
ghost use Rattle.filter_state.specs.Lines.{IsLine};
ghost use Rattle.filter_state.specs.Steps.{step};
ghost use Rattle.hook_store_law.specs.OfEdits.Premises.{now, next, IsOfFilters};
ghost use Rattle.desk_actions.specs.OfLedgers.Kept.{commits, base};
ghost use Rattle.desk_actions.specs.Effects.{IsCounted};
ghost use Rattle.desk_parts.specs.OfLineActions.Put.{IsOfLine, ArePut};
ghost use Rattle.desk_parts.specs.Desk.{IsDesk};
ghost use Rattle.shared_hook.specs.OfDeskEdits.Ahead.{IsAhead, GoesOnStill};

use desk_parts::Parts;
use desk_parts::line_actions::put_new_actions;
use filter_lists::{Done, Edit, Prepared};
use hook_store_law::HookStore;
use store_history::EditName;

/// Does an edit of a filter's line, which was made ready, on the lists, and puts the actions that it makes.
/// Each takes a slot and a block out of the pools.
pub fn lead<E: EditName<Edit>>(parts: &mut Parts, store: &HookStore, prepared: Prepared) -> Done
    requires store { IsSeatOf store.now parts.old.ledger.writer.place }
    requires desk { IsDesk parts.old }
    requires ready { parts.old.ledger.lists ≡ prepared.lists }
    requires edit { (prepared.edit ≡ E.edit) × IsLine E.edit × IsOfLine E.edit }
    requires enough { ((next (commits parts.old.ledger) E.edit).actions_made
        ≤ (now (commits parts.old.ledger)).actions_made + length parts.old.pools.blocks.free)
        × ((next (commits parts.old.ledger) E.edit).actions_made
        ≤ (now (commits parts.old.ledger)).actions_made + length parts.old.pools.actions.free) }
    requires few { parts.old.ledger.point + 1 < 2 ^ 32 }
    ensures store { IsSeatOf store.now parts.new.ledger.writer.place }
    ensures ahead { IsAhead parts.new E.edit result }
    ensures done { step (now (commits parts.old.ledger)) E.edit
        ≡ Ok (next (commits parts.old.ledger) E.edit, result) }
    ensures put { ArePut (commits parts.old.ledger) (commits parts.new.ledger) (base parts.old.ledger)
        parts.old.ledger.point E.edit }
    ensures still { GoesOnStill (commits parts.old.ledger) (commits parts.new.ledger) }
    ensures sheet { IsSameButCells (sheet_of parts.old.ledger.writer.place)
        (sheet_of parts.new.ledger.writer.place) }
    ensures blocks { (taken : ℕ) → (next (commits parts.old.ledger) E.edit).actions_made
        ≡ (now (commits parts.old.ledger)).actions_made + taken
        → IsCounted parts.old.pools.blocks parts.new.pools.blocks taken 0 }
    ensures actions { (taken : ℕ) → (next (commits parts.old.ledger) E.edit).actions_made
        ≡ (now (commits parts.old.ledger)).actions_made + taken
        → IsCounted parts.old.pools.actions parts.new.pools.actions taken 0 }
    ensures others { parts.new.pools ≡ record parts.old.pools {
      blocks = parts.new.pools.blocks;
      actions = parts.new.pools.actions;
    } }
    ensures rest { parts.new ≡ record parts.old {
      ledger = parts.new.ledger;
      pools = parts.new.pools;
      actions = parts.new.actions;
    } }
    ensures point { parts.new.ledger.point ≡ parts.old.ledger.point }
{
    let made = parts.ledger.lists.actions().made();
    let done = parts.ledger.lists.finish(prepared);
    put_new_actions::<E>(
        &parts.ledger.lists,
        &mut parts.ledger.writer,
        store,
        &mut parts.pools,
        &mut parts.actions,
        made,
        parts.ledger.point,
    );
    done
}

/// Does an edit that deletes filters, which was made ready, on the lists. It makes no action, and nothing is
/// committed yet.
pub fn lead_removal<E: EditName<Edit>>(parts: &mut Parts, prepared: Prepared) -> Done
    requires desk { IsDesk parts.old }
    requires ready { parts.old.ledger.lists ≡ prepared.lists }
    requires edit { (prepared.edit ≡ E.edit) × IsLine E.edit × IsOfFilters E.edit }
    requires removal { IsOfLine E.edit → ⊥ }
    ensures ahead { IsAhead parts.new E.edit result }
    ensures done { step (now (commits parts.old.ledger)) E.edit
        ≡ Ok (next (commits parts.old.ledger) E.edit, result) }
    ensures rest { parts.new
        ≡ record parts.old { ledger = record parts.old.ledger { lists = parts.new.ledger.lists } } }
    ensures still { GoesOnStill (commits parts.old.ledger) (commits parts.new.ledger) }
{
    parts.ledger.lists.finish(prepared)
}
