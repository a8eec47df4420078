//! A filter comes with a mask of its own, whole.
ghost use Rattle.std.specs.Prelude.{◌≡◌, ◌<◌, ◌≤◌, ◌+◌, ◌^◌, ◌∷◌, ◌++◌, [], length, true, Ok};
ghost use Rattle.store_history.specs.History.{edits_of};
ghost use Rattle.pin_store.specs.Sheets.{IsSameButCells};
ghost use Rattle.pin_store.specs.Calls.{sheet_of, IsSeatOf};
ghost use Rattle.filter_state.specs.Lines.{IsLine};
ghost use Rattle.filter_state.specs.Steps.{step};
ghost use Rattle.hook_store_law.specs.OfEdits.Premises.{now, next};
ghost use Rattle.desk_pools.specs.Steps.{turned};
ghost use Rattle.desk_actions.specs.OfLedgers.Kept.{commits};
ghost use Rattle.desk_actions.specs.Effects.{IsCounted};
ghost use Rattle.desk_parts.specs.Desk.{IsDesk};
ghost use Rattle.desk_heads.specs.Handed.{idle_of};
ghost use Rattle.desk_parts.specs.declared.ways.way.Way.TheVariants as ways;
ghost use Rattle.desk_parts.specs.OfWays.Ways.{WithMask};
ghost use Rattle.shared_hook.specs.OfDeskEdits.Spent.{made_by, needed, HaveFree, HasRoom};

use crate::desk_edits::leading::lead;
use crate::desk_edits::opening::open_in_head;
use crate::desk_edits::room::Room;
use desk_parts::Parts;
use filter_lists::{Done, Edit, Prepared};
use filter_state::FilterLine;
use hook_store_law::HookStore;
use store_history::EditName;

/// Does an edit that was made ready and that adds a filter with a mask of its own, and makes its commits: its
/// new actions are put, the mask is put whole where nobody reads it yet, and the hook gets its tables anew.
/// Nothing leaves, but the place of the tables that the hook had.
pub fn put_with_mask<E: EditName<Edit>>(
    parts: &mut Parts,
    store: &HookStore,
    line: &FilterLine,
    prepared: Prepared,
    room: Room,
) -> Done
    requires store { IsSeatOf store.now parts.old.ledger.writer.place }
    requires desk { IsDesk parts.old }
    requires ready { parts.old.ledger.lists ≡ prepared.lists }
    requires edit { (prepared.edit ≡ E.edit) × IsLine E.edit }
    requires way { (way : WithMask (commits parts.old.ledger) E.edit line.now.hook)
        × (way.line ≡ line.now) }
    requires few { parts.old.ledger.point + 1 < 2 ^ 32 }
    requires enough { HaveFree parts.old.pools
        (needed (commits parts.old.ledger) E.edit (ways.WithMask line.now.hook)) }
    requires heads { (1 ≤ length parts.old.pools.masks.free)
        × ((idle_of line.now.hook parts.old.pools).is_free ≡ true) }
    requires room { HasRoom room 2 1 }
    ensures store { IsSeatOf store.now parts.new.ledger.writer.place }
    ensures desk { IsDesk parts.new }
    ensures point { parts.new.ledger.point ≡ parts.old.ledger.point + 1 }
    ensures journal { edits_of (commits parts.new.ledger)
        ≡ edits_of (commits parts.old.ledger) ++ E.edit ∷ [] }
    ensures done { step (now (commits parts.old.ledger)) E.edit
        ≡ Ok (next (commits parts.old.ledger) E.edit, result) }
    ensures sheet { IsSameButCells (sheet_of parts.old.ledger.writer.place)
        (sheet_of parts.new.ledger.writer.place) }
    ensures blocks { IsCounted parts.old.pools.blocks parts.new.pools.blocks
        (needed (commits parts.old.ledger) E.edit (ways.WithMask line.now.hook)).blocks 0 }
    ensures rows { IsCounted parts.old.pools.rows parts.new.pools.rows 1 0 }
    ensures masks { IsCounted parts.old.pools.masks parts.new.pools.masks 1 0 }
    ensures actions { IsCounted parts.old.pools.actions parts.new.pools.actions
        (made_by (commits parts.old.ledger) E.edit) 0 }
    ensures places { (parts.new.pools.ingress ≡ (turned line.now.hook parts.old.pools).ingress)
        × (parts.new.pools.egress ≡ (turned line.now.hook parts.old.pools).egress) }
    ensures rest { parts.new ≡ record parts.old {
      ledger = parts.new.ledger;
      pools = parts.new.pools;
      actions = parts.new.actions;
      masks = parts.new.masks;
      ingress = parts.new.ingress;
      egress = parts.new.egress;
      room = parts.new.room;
    } }
{
    let done = lead::<E>(parts, store, prepared);
    open_in_head::<E>(parts, store, line, &done, room);
    done
}
