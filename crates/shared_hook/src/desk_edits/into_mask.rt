//! A filter comes into a mask that stands.
ghost use Rattle.std.specs.Prelude.{◌≡◌, ◌<◌, ◌≤◌, ◌+◌, ◌^◌, ◌∷◌, ◌++◌, ℕ, [], Ok};
ghost use Rattle.store_history.specs.History.{edits_of};
ghost use Rattle.pin_store.specs.Sheets.{IsSameButCells};
ghost use Rattle.pin_store.specs.Calls.{sheet_of, IsSeatOf};
ghost use Rattle.filter_state.specs.declared.limits.TheConstants.{FILTERS_MAX};
ghost use Rattle.filter_state.specs.Lines.{IsLine};
ghost use Rattle.filter_state.specs.Steps.{step};
ghost use Rattle.hook_store_law.specs.OfEdits.Premises.{now, next};
ghost use Rattle.desk_needs.specs.OfEditNeeds.Told.{blocks_anew, rows_anew};
ghost use Rattle.desk_actions.specs.OfLedgers.Kept.{commits};
ghost use Rattle.desk_actions.specs.Effects.{IsCounted};
ghost use Rattle.desk_parts.specs.Desk.{IsDesk};
ghost use Rattle.desk_parts.specs.declared.ways.way.Way.TheVariants as ways;
ghost use Rattle.desk_parts.specs.OfWays.Ways.{IntoMask};
ghost use Rattle.shared_hook.specs.OfDeskEdits.Spent.{made_by, needed, HaveFree, HasRoom};

use crate::desk_edits::adding::add_to_mask;
use crate::desk_edits::fitting::fit_mask;
use crate::desk_edits::leading::lead;
use crate::desk_edits::room::Room;
use desk_parts::Parts;
use filter_lists::{Done, Edit, Prepared};
use filter_state::FilterLine;
use hook_store_law::HookStore;
use store_history::EditName;

/// Does an edit that was made ready and that adds a filter to a mask that stands, and makes its commits: its
/// new actions are put, the filter comes into the mask at the slot, which had `count`, and where it needs
/// another size now, the mask is laid anew. Blocks, rows and slots come out of the pools, and blocks and rows
/// that the mask had leave.
pub fn put_into_mask<E: EditName<Edit>>(
    parts: &mut Parts,
    store: &HookStore,
    line: &FilterLine,
    prepared: Prepared,
    slot: u32,
    count: u32,
    first: Room,
    anew: Room,
) -> Done
    requires store { IsSeatOf store.now parts.old.ledger.writer.place }
    requires desk { IsDesk parts.old }
    requires ready { parts.old.ledger.lists ≡ prepared.lists }
    requires edit { (prepared.edit ≡ E.edit) × IsLine E.edit }
    requires way { (way : IntoMask (commits parts.old.ledger) E.edit slot count) × (way.line ≡ line.now) }
    requires few { (parts.old.ledger.point + 1 < 2 ^ 32) × (count ≤ FILTERS_MAX) }
    requires enough { HaveFree parts.old.pools
        (needed (commits parts.old.ledger) E.edit (ways.IntoMask slot count)) }
    requires first { HasRoom first 1 0 }
    requires anew { HasRoom anew (blocks_anew count (count + 1)) (rows_anew count (count + 1)) }
    ensures store { IsSeatOf store.now parts.new.ledger.writer.place }
    ensures desk { IsDesk parts.new }
    ensures point { parts.new.ledger.point ≡ parts.old.ledger.point + 1 }
    ensures journal { edits_of (commits parts.new.ledger)
        ≡ edits_of (commits parts.old.ledger) ++ E.edit ∷ [] }
    ensures done { step (now (commits parts.old.ledger)) E.edit
        ≡ Ok (next (commits parts.old.ledger) E.edit, result) }
    ensures sheet { IsSameButCells (sheet_of parts.old.ledger.writer.place)
        (sheet_of parts.new.ledger.writer.place) }
    ensures blocks { IsCounted parts.old.pools.blocks parts.new.pools.blocks
        (needed (commits parts.old.ledger) E.edit (ways.IntoMask slot count)).blocks
        (blocks_anew count (count + 1)) }
    ensures rows { IsCounted parts.old.pools.rows parts.new.pools.rows
        (needed (commits parts.old.ledger) E.edit (ways.IntoMask slot count)).rows
        (rows_anew (count + 1) count) }
    ensures actions { IsCounted parts.old.pools.actions parts.new.pools.actions
        (made_by (commits parts.old.ledger) E.edit) 0 }
    ensures pools { parts.new.pools ≡ record parts.old.pools {
      blocks = parts.new.pools.blocks;
      rows = parts.new.pools.rows;
      actions = parts.new.pools.actions;
    } }
    ensures rest { parts.new ≡ record parts.old {
      ledger = parts.new.ledger;
      pools = parts.new.pools;
      actions = parts.new.actions;
      masks = parts.new.masks;
    } }
{
    let done = lead::<E>(parts, store, prepared);
    add_to_mask::<E>(parts, store, line, &done, slot, first);
    fit_mask::<E>(parts, store, slot, count, count + 1, anew);
    done
}
