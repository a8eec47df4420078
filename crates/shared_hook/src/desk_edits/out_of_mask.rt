//! A filter goes out of a mask that has others.
ghost use Rattle.std.specs.Prelude.{◌≡◌, ◌<◌, ◌≤◌, ◌+◌, ◌-◌, ◌^◌, ◌∷◌, ◌++◌, [], Ok};
ghost use Rattle.store_history.specs.History.{edits_of};
ghost use Rattle.pin_store.specs.Sheets.{IsSameButCells};
ghost use Rattle.pin_store.specs.Calls.{sheet_of, IsSeatOf};
ghost use Rattle.filter_state.specs.Lines.{IsLine};
ghost use Rattle.filter_state.specs.Steps.{step};
ghost use Rattle.hook_store_law.specs.OfEdits.Premises.{now, next};
ghost use Rattle.desk_needs.specs.OfEditNeeds.Told.{blocks_anew, rows_anew};
ghost use Rattle.desk_actions.specs.OfLedgers.Kept.{commits};
ghost use Rattle.desk_actions.specs.Effects.{IsCounted};
ghost use Rattle.desk_parts.specs.OfLineActions.Gone.{NamesGone};
ghost use Rattle.desk_parts.specs.Desk.{IsDesk};
ghost use Rattle.desk_parts.specs.declared.ways.way.Way.TheVariants as ways;
ghost use Rattle.desk_parts.specs.OfWays.Ways.{OutOfMask};
ghost use Rattle.shared_hook.specs.OfDeskEdits.Spent.{needed, HaveFree, HasRoom, LeftWithActions};

use crate::desk_edits::fitting::fit_mask;
use crate::desk_edits::leading::lead_removal;
use crate::desk_edits::letting::let_go;
use crate::desk_edits::removing::take_from_mask;
use crate::desk_edits::room::Room;
use desk_parts::Parts;
use filter_lists::{Done, Edit, Prepared};
use hook_store_law::HookStore;
use store_history::EditName;

/// Does an edit that was made ready and that deletes the filter with a handle, whose mask has others, and
/// makes its commits: the filter goes out of the mask at the slot, which had `count`, the mask is laid anew
/// where it needs another size now, and those of the filter's actions go that are live no more. The lists
/// have the filter no more by then, so the caller tells its actions, as they were before.
pub fn take_out_of_mask<E: EditName<Edit>>(
    parts: &mut Parts,
    store: &HookStore,
    prepared: Prepared,
    gone: &[u32],
    handle: u32,
    slot: u32,
    count: u32,
    later: u32,
    first: Room,
    anew: Room,
) -> Done
    requires store { IsSeatOf store.now parts.old.ledger.writer.place }
    requires desk { IsDesk parts.old }
    requires ready { parts.old.ledger.lists ≡ prepared.lists }
    requires edit { (prepared.edit ≡ E.edit) × IsLine E.edit }
    requires way { (way : OutOfMask (commits parts.old.ledger) E.edit slot count later)
        × (way.handle ≡ handle) }
    requires gone { NamesGone (now (commits parts.old.ledger)) E.edit gone.now }
    requires few { parts.old.ledger.point + 1 < 2 ^ 32 }
    requires enough { HaveFree parts.old.pools
        (needed (commits parts.old.ledger) E.edit (ways.OutOfMask slot count later)) }
    requires first { HasRoom first later 0 }
    requires anew { HasRoom anew (blocks_anew count (count - 1)) (rows_anew count (count - 1)) }
    ensures store { IsSeatOf store.now parts.new.ledger.writer.place }
    ensures desk { IsDesk parts.new }
    ensures point { parts.new.ledger.point ≡ parts.old.ledger.point + 1 }
    ensures journal { edits_of (commits parts.new.ledger)
        ≡ edits_of (commits parts.old.ledger) ++ E.edit ∷ [] }
    ensures done { step (now (commits parts.old.ledger)) E.edit
        ≡ Ok (next (commits parts.old.ledger) E.edit, result) }
    ensures sheet { IsSameButCells (sheet_of parts.old.ledger.writer.place)
        (sheet_of parts.new.ledger.writer.place) }
    ensures left { LeftWithActions parts.old.pools parts.new.pools (commits parts.new.ledger) gone.now
        (needed (commits parts.old.ledger) E.edit (ways.OutOfMask slot count later))
        (later + 1 + blocks_anew count (count - 1)) }
    ensures rows { IsCounted parts.old.pools.rows parts.new.pools.rows
        (needed (commits parts.old.ledger) E.edit (ways.OutOfMask slot count later)).rows
        (rows_anew (count - 1) count) }
    ensures pools { parts.new.pools ≡ record parts.old.pools {
      blocks = parts.new.pools.blocks;
      rows = parts.new.pools.rows;
      actions = parts.new.pools.actions;
    } }
    ensures rest { parts.new ≡ record parts.old {
      ledger = parts.new.ledger;
      pools = parts.new.pools;
      actions = parts.new.actions;
      masks = parts.new.masks;
    } }
{
    let done = lead_removal::<E>(parts, prepared);
    take_from_mask::<E>(parts, store, handle, slot, later, first);
    fit_mask::<E>(parts, store, slot, count, count - 1, anew);
    let_go(parts, gone);
    done
}
