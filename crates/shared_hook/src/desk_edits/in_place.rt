//! A filter takes the place of the one with its mask and key.
ghost use Rattle.std.specs.Prelude.{◌≡◌, ◌<◌, ◌+◌, ◌^◌, ◌∷◌, ◌++◌, [], Ok};
ghost use Rattle.store_history.specs.History.{edits_of};
ghost use Rattle.pin_store.specs.Sheets.{IsSameButCells};
ghost use Rattle.pin_store.specs.Calls.{sheet_of, IsSeatOf};
ghost use Rattle.filter_state.specs.Lines.{IsLine};
ghost use Rattle.filter_state.specs.Steps.{step};
ghost use Rattle.hook_store_law.specs.OfEdits.Premises.{now, next};
ghost use Rattle.desk_actions.specs.OfLedgers.Kept.{commits};
ghost use Rattle.desk_parts.specs.OfLineActions.Gone.{NamesGone};
ghost use Rattle.desk_parts.specs.Desk.{IsDesk};
ghost use Rattle.desk_parts.specs.declared.ways.way.Way.TheVariants as ways;
ghost use Rattle.desk_parts.specs.OfWays.Ways.{InPlace};
ghost use Rattle.shared_hook.specs.OfDeskEdits.Spent.{needed, HaveFree, HasRoom, LeftWithActions};

use crate::desk_edits::exchanging::exchange_in_mask;
use crate::desk_edits::leading::lead;
use crate::desk_edits::letting::let_go;
use crate::desk_edits::room::Room;
use desk_parts::Parts;
use filter_lists::{Done, Edit, Prepared};
use filter_state::FilterLine;
use hook_store_law::HookStore;
use store_history::EditName;

/// Does an edit that was made ready and that replaces a filter by one with its mask and key, and makes its
/// commits: its new actions are put, the filter takes the old one's place in the mask at the slot, and those
/// of the old one's actions go that are live no more. The lists have the old one no more by then, so the
/// caller tells its actions, as they were before.
pub fn exchange_in_place<E: EditName<Edit>>(
    parts: &mut Parts,
    store: &HookStore,
    line: &FilterLine,
    prepared: Prepared,
    gone: &[u32],
    slot: u32,
    later: u32,
    room: Room,
) -> Done
    requires store { IsSeatOf store.now parts.old.ledger.writer.place }
    requires desk { IsDesk parts.old }
    requires ready { parts.old.ledger.lists ≡ prepared.lists }
    requires edit { (prepared.edit ≡ E.edit) × IsLine E.edit }
    requires way { (way : InPlace (commits parts.old.ledger) E.edit slot later) × (way.line ≡ line.now) }
    requires gone { NamesGone (now (commits parts.old.ledger)) E.edit gone.now }
    requires few { parts.old.ledger.point + 1 < 2 ^ 32 }
    requires enough { HaveFree parts.old.pools
        (needed (commits parts.old.ledger) E.edit (ways.InPlace slot later)) }
    requires room { HasRoom room (later + 1) 0 }
    ensures store { IsSeatOf store.now parts.new.ledger.writer.place }
    ensures desk { IsDesk parts.new }
    ensures point { parts.new.ledger.point ≡ parts.old.ledger.point + 1 }
    ensures journal { edits_of (commits parts.new.ledger)
        ≡ edits_of (commits parts.old.ledger) ++ E.edit ∷ [] }
    ensures done { step (now (commits parts.old.ledger)) E.edit
        ≡ Ok (next (commits parts.old.ledger) E.edit, result) }
    ensures sheet { IsSameButCells (sheet_of parts.old.ledger.writer.place)
        (sheet_of parts.new.ledger.writer.place) }
    ensures left { LeftWithActions parts.old.pools parts.new.pools (commits parts.new.ledger) gone.now
        (needed (commits parts.old.ledger) E.edit (ways.InPlace slot later)) (later + 1) }
    ensures pools { parts.new.pools ≡ record parts.old.pools {
      blocks = parts.new.pools.blocks;
      actions = parts.new.pools.actions;
    } }
    ensures rest { parts.new ≡ record parts.old {
      ledger = parts.new.ledger;
      pools = parts.new.pools;
      actions = parts.new.actions;
      masks = parts.new.masks;
    } }
{
    let done = lead::<E>(parts, store, prepared);
    exchange_in_mask::<E>(parts, store, line, &done, slot, later, room);
    let_go(parts, gone);
    done
}
