//! A filter gets another mask.
ghost use Rattle.std.specs.Prelude.{◌≡◌, ◌<◌, ◌≤◌, ◌+◌, ◌-◌, ◌^◌, ◌∷◌, ◌++◌, [], length, true, Ok};
ghost use Rattle.store_history.specs.History.{edits_of};
ghost use Rattle.pin_store.specs.Sheets.{IsSameButCells};
ghost use Rattle.pin_store.specs.Calls.{sheet_of, IsSeatOf};
ghost use Rattle.filter_state.specs.declared.limits.TheConstants.{FILTERS_MAX};
ghost use Rattle.filter_state.specs.Lines.{IsLine};
ghost use Rattle.filter_state.specs.Steps.{step};
ghost use Rattle.hook_store_law.specs.OfEdits.Premises.{now, next};
ghost use Rattle.desk_needs.specs.OfEditNeeds.Told.{laid, laid_rows, laid_masks};
ghost use Rattle.desk_pools.specs.Steps.{turned};
ghost use Rattle.desk_actions.specs.OfLedgers.Kept.{commits};
ghost use Rattle.desk_actions.specs.Effects.{IsCounted};
ghost use Rattle.desk_parts.specs.OfLineActions.Gone.{NamesGone};
ghost use Rattle.desk_parts.specs.Desk.{IsDesk};
ghost use Rattle.desk_heads.specs.Handed.{idle_of};
ghost use Rattle.desk_parts.specs.declared.ways.way.Way.TheVariants as ways;
ghost use Rattle.desk_parts.specs.OfWays.Ways.{OtherMask};
ghost use Rattle.shared_hook.specs.OfDeskEdits.Spent.{needed, HaveFree, LeftWithActions};
ghost use Rattle.shared_hook.specs.OfDeskEdits.OfMoves.Rooms.{HasMaskRoom};

use crate::desk_edits::moves::leaving::leave_mask;
use crate::desk_edits::moves::mask_room::MaskRoom;
use crate::desk_edits::moves::named::mask_named;
use crate::desk_edits::moves::raising::raise_mask;
use crate::desk_edits::{lead, let_go};
use desk_parts::Parts;
use filter_lists::{Done, Edit, Prepared};
use filter_state::FilterLine;
use hook_store_law::HookStore;
use store_history::EditName;

/// Does an edit that was made ready and that gives a filter another mask, and makes its commits: its new
/// actions are put, the line's mask is laid anew with the filter last, or made for it, and so is the mask at
/// the slot, which had `count` filters, where it has others. The line's mask stood at `into` with `others`,
/// or it didn't stand. Then the hook gets its tables anew, and what the masks had at their old places leaves,
/// with those of the old filter's actions that are live no more. The lists have the old filter no more by
/// then, so the caller tells its actions, as they were before.
pub fn give_other_mask<E: EditName<Edit>>(
    parts: &mut Parts,
    store: &HookStore,
    line: &FilterLine,
    prepared: Prepared,
    gone: &[u32],
    slot: u32,
    count: u32,
    into: Option<u32>,
    others: u32,
    to: MaskRoom,
    from: MaskRoom,
) -> Done
    requires store { IsSeatOf store.now parts.old.ledger.writer.place }
    requires desk { IsDesk parts.old }
    requires ready { parts.old.ledger.lists ≡ prepared.lists }
    requires edit { (prepared.edit ≡ E.edit) × IsLine E.edit }
    requires way { (way : OtherMask (commits parts.old.ledger) E.edit line.now.hook slot count into others)
        × (way.line ≡ line.now) }
    requires gone { NamesGone (now (commits parts.old.ledger)) E.edit gone.now }
    requires few { (parts.old.ledger.point + 1 < 2 ^ 32) × (count ≤ FILTERS_MAX) × (others ≤ FILTERS_MAX) }
    requires enough { HaveFree parts.old.pools
        (needed (commits parts.old.ledger) E.edit (ways.OtherMask line.now.hook slot count into others)) }
    requires heads { ((needed (commits parts.old.ledger) E.edit
        (ways.OtherMask line.now.hook slot count into others)).masks ≤ length parts.old.pools.masks.free)
        × ((idle_of line.now.hook parts.old.pools).is_free ≡ true) }
    requires to { HasMaskRoom to (others + 1) }
    requires from { HasMaskRoom from (count - 1) }
    ensures store { IsSeatOf store.now parts.new.ledger.writer.place }
    ensures desk { IsDesk parts.new }
    ensures point { parts.new.ledger.point ≡ parts.old.ledger.point + 1 }
    ensures journal { edits_of (commits parts.new.ledger)
        ≡ edits_of (commits parts.old.ledger) ++ E.edit ∷ [] }
    ensures done { step (now (commits parts.old.ledger)) E.edit
        ≡ Ok (next (commits parts.old.ledger) E.edit, result) }
    ensures sheet { IsSameButCells (sheet_of parts.old.ledger.writer.place)
        (sheet_of parts.new.ledger.writer.place) }
    ensures left { LeftWithActions parts.old.pools parts.new.pools (commits parts.new.ledger) gone.now
        (needed (commits parts.old.ledger) E.edit (ways.OtherMask line.now.hook slot count into others))
        (laid count + laid others) }
    ensures rows { IsCounted parts.old.pools.rows parts.new.pools.rows
        (needed (commits parts.old.ledger) E.edit (ways.OtherMask line.now.hook slot count into others)).rows
        (laid_rows count + laid_rows others) }
    ensures masks { IsCounted parts.old.pools.masks parts.new.pools.masks
        (needed (commits parts.old.ledger) E.edit (ways.OtherMask line.now.hook slot count into others)).masks
        (laid_masks count + laid_masks others) }
    ensures places { (parts.new.pools.ingress ≡ (turned line.now.hook parts.old.pools).ingress)
        × (parts.new.pools.egress ≡ (turned line.now.hook parts.old.pools).egress) }
    ensures rest { parts.new ≡ record parts.old {
      ledger = parts.new.ledger;
      pools = parts.new.pools;
      actions = parts.new.actions;
      masks = parts.new.masks;
      ingress = parts.new.ingress;
      egress = parts.new.egress;
      room = parts.new.room;
    } }
{
    let words = mask_named(parts, line);
    let done = lead::<E>(parts, store, prepared);
    let first = raise_mask::<E>(parts, store, line, &done, &line.mask, others + 1, to);
    leave_mask::<E>(
        parts, store, line, &done, &words, first, slot, count, into, from,
    );
    let_go(parts, gone);
    done
}
