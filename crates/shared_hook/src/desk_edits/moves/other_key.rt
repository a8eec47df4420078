//! A filter gets another key.
ghost use Rattle.std.specs.Prelude.{◌≡◌, ◌<◌, ◌≤◌, ◌+◌, ◌^◌, ◌∷◌, ◌++◌, [], length, true, Ok};
ghost use Rattle.store_history.specs.History.{edits_of};
ghost use Rattle.pin_store.specs.Sheets.{IsSameButCells};
ghost use Rattle.pin_store.specs.Calls.{sheet_of, IsSeatOf};
ghost use Rattle.filter_state.specs.declared.limits.TheConstants.{FILTERS_MAX};
ghost use Rattle.filter_state.specs.Lines.{IsLine};
ghost use Rattle.filter_state.specs.Steps.{step};
ghost use Rattle.hook_store_law.specs.OfEdits.Premises.{now, next};
ghost use Rattle.desk_needs.specs.OfEditNeeds.Told.{laid, laid_rows, laid_masks};
ghost use Rattle.desk_pools.specs.Steps.{turned};
ghost use Rattle.desk_actions.specs.OfLedgers.Kept.{commits};
ghost use Rattle.desk_actions.specs.Effects.{IsCounted};
ghost use Rattle.desk_parts.specs.OfLineActions.Gone.{NamesGone};
ghost use Rattle.desk_parts.specs.Desk.{IsDesk};
ghost use Rattle.desk_heads.specs.Handed.{idle_of};
ghost use Rattle.desk_parts.specs.declared.ways.way.Way.TheVariants as ways;
ghost use Rattle.desk_parts.specs.OfWays.Ways.{OtherKey};
ghost use Rattle.shared_hook.specs.OfDeskEdits.Spent.{needed, HaveFree, LeftWithActions};
ghost use Rattle.shared_hook.specs.OfDeskEdits.OfMoves.Rooms.{HasMaskRoom};

use crate::desk_edits::moves::mask_room::MaskRoom;
use crate::desk_edits::moves::moving::move_in_head;
use crate::desk_edits::moves::raising::raise_mask;
use crate::desk_edits::{lead, let_go};
use desk_parts::Parts;
use filter_lists::{Done, Edit, Prepared};
use filter_state::FilterLine;
use hook_store_law::HookStore;
use std::slice;
use store_history::EditName;

/// Does an edit that was made ready and that gives a filter another key, and makes its commits: its new
/// actions are put, the mask at the slot, which has `count` filters, is laid anew with the filter last, the
/// hook gets its tables anew, and what the mask had at its old place leaves, with those of the old filter's
/// actions that are live no more. The lists have the old filter no more by then, so the caller tells its
/// actions, as they were before.
pub fn give_other_key<E: EditName<Edit>>(
    parts: &mut Parts,
    store: &HookStore,
    line: &FilterLine,
    prepared: Prepared,
    gone: &[u32],
    slot: u32,
    count: u32,
    room: MaskRoom,
) -> Done
    requires store { IsSeatOf store.now parts.old.ledger.writer.place }
    requires desk { IsDesk parts.old }
    requires ready { parts.old.ledger.lists ≡ prepared.lists }
    requires edit { (prepared.edit ≡ E.edit) × IsLine E.edit }
    requires way { (way : OtherKey (commits parts.old.ledger) E.edit line.now.hook slot count)
        × (way.line ≡ line.now) }
    requires gone { NamesGone (now (commits parts.old.ledger)) E.edit gone.now }
    requires few { (parts.old.ledger.point + 1 < 2 ^ 32) × (count ≤ FILTERS_MAX) }
    requires enough { HaveFree parts.old.pools
        (needed (commits parts.old.ledger) E.edit (ways.OtherKey line.now.hook slot count)) }
    requires heads { ((needed (commits parts.old.ledger) E.edit
        (ways.OtherKey line.now.hook slot count)).masks ≤ length parts.old.pools.masks.free)
        × ((idle_of line.now.hook parts.old.pools).is_free ≡ true) }
    requires room { HasMaskRoom room count }
    ensures store { IsSeatOf store.now parts.new.ledger.writer.place }
    ensures desk { IsDesk parts.new }
    ensures point { parts.new.ledger.point ≡ parts.old.ledger.point + 1 }
    ensures journal { edits_of (commits parts.new.ledger)
        ≡ edits_of (commits parts.old.ledger) ++ E.edit ∷ [] }
    ensures done { step (now (commits parts.old.ledger)) E.edit
        ≡ Ok (next (commits parts.old.ledger) E.edit, result) }
    ensures sheet { IsSameButCells (sheet_of parts.old.ledger.writer.place)
        (sheet_of parts.new.ledger.writer.place) }
    ensures left { LeftWithActions parts.old.pools parts.new.pools (commits parts.new.ledger) gone.now
        (needed (commits parts.old.ledger) E.edit (ways.OtherKey line.now.hook slot count)) (laid count) }
    ensures rows { IsCounted parts.old.pools.rows parts.new.pools.rows
        (needed (commits parts.old.ledger) E.edit (ways.OtherKey line.now.hook slot count)).rows
        (laid_rows count) }
    ensures masks { IsCounted parts.old.pools.masks parts.new.pools.masks
        (needed (commits parts.old.ledger) E.edit (ways.OtherKey line.now.hook slot count)).masks
        (laid_masks count) }
    ensures places { (parts.new.pools.ingress ≡ (turned line.now.hook parts.old.pools).ingress)
        × (parts.new.pools.egress ≡ (turned line.now.hook parts.old.pools).egress) }
    ensures rest { parts.new ≡ record parts.old {
      ledger = parts.new.ledger;
      pools = parts.new.pools;
      actions = parts.new.actions;
      masks = parts.new.masks;
      ingress = parts.new.ingress;
      egress = parts.new.egress;
      room = parts.new.room;
    } }
{
    let done = lead::<E>(parts, store, prepared);
    let mask = raise_mask::<E>(parts, store, line, &done, &line.mask, count, room);
    move_in_head::<E>(parts, store, line.hook, slice::from_ref(&mask), slot, None);
    let_go(parts, gone);
    done
}
