//! An action is made.
ghost use Rattle.std.specs.Prelude.{◌≡◌, ◌<◌, ◌+◌, ◌^◌, ◌∷◌, ◌++◌, [], length, Ok};
ghost use Rattle.store_history.specs.History.{edits_of};
ghost use Rattle.pin_store.specs.Sheets.{IsSameButCells};
ghost use Rattle.pin_store.specs.Calls.{sheet_of, IsSeatOf};
ghost use Rattle.filter_state.specs.Lines.{IsLine};
ghost use Rattle.filter_state.specs.Steps.{step};
ghost use Rattle.hook_store_law.specs.OfEdits.Premises.{now, next};
ghost use Rattle.desk_actions.specs.OfLedgers.Kept.{commits};
ghost use Rattle.desk_actions.specs.Effects.{AddsToSlot, IsCounted, KeepsBlocks};
ghost use Rattle.desk_actions.specs.Kinds.{IsMaking};
ghost use Rattle.desk_parts.specs.Desk.{IsDesk};

use crate::Parts;
use desk_actions::make;
use filter_lists::{ActionLine, Done, Edit, Prepared};
use hook_store_law::HookStore;
use store_history::EditName;

/// Does an edit that was made ready and that makes an action, and makes its commit: the record goes into a
/// block, and a slot of actions comes to name it. Both come out of the pools.
pub fn make_action<E: EditName<Edit>>(
    parts: &mut Parts,
    store: &HookStore,
    line: &ActionLine,
    prepared: Prepared,
) -> Done
    requires store { IsSeatOf store.now parts.old.ledger.writer.place }
    requires desk { IsDesk parts.old }
    requires ready { parts.old.ledger.lists ≡ prepared.lists }
    requires edit { (prepared.edit ≡ E.edit) × IsLine E.edit }
    requires making { IsMaking (now (commits parts.old.ledger)) line.now E.edit }
    requires enough { (0 < length parts.old.pools.blocks.free) × (0 < length parts.old.pools.actions.free) }
    requires few { parts.old.ledger.point + 1 < 2 ^ 32 }
    ensures store { IsSeatOf store.now parts.new.ledger.writer.place }
    ensures desk { IsDesk parts.new }
    ensures point { parts.new.ledger.point ≡ parts.old.ledger.point + 1 }
    ensures seen { AddsToSlot (commits parts.old.ledger) (commits parts.new.ledger)
        parts.new.ledger.point E.edit }
    ensures journal { edits_of (commits parts.new.ledger)
        ≡ edits_of (commits parts.old.ledger) ++ E.edit ∷ [] }
    ensures sheet { IsSameButCells (sheet_of parts.old.ledger.writer.place)
        (sheet_of parts.new.ledger.writer.place) }
    ensures others { KeepsBlocks store.now.shape (commits parts.old.ledger)
        (sheet_of parts.old.ledger.writer.place) (sheet_of parts.new.ledger.writer.place) }
    ensures blocks { IsCounted parts.old.pools.blocks parts.new.pools.blocks 1 0 }
    ensures actions { IsCounted parts.old.pools.actions parts.new.pools.actions 1 0 }
    ensures free { parts.new.pools ≡ record parts.old.pools {
      blocks = parts.new.pools.blocks;
      actions = parts.new.pools.actions;
    } }
    ensures rest { parts.new ≡ record parts.old {
      ledger = parts.new.ledger;
      pools = parts.new.pools;
      actions = parts.new.actions;
    } }
    ensures done { step (now (commits parts.old.ledger)) E.edit
        ≡ Ok (next (commits parts.old.ledger) E.edit, result) }
{
    make::<E>(
        &mut parts.ledger,
        store,
        &mut parts.pools,
        &mut parts.actions,
        line,
        prepared,
    )
}
