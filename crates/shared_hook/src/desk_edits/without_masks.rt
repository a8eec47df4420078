//! Masks go with their filters, whole.
ghost use Rattle.std.specs.Prelude.{◌≡◌, ◌<◌, ◌+◌, ◌^◌, ◌∷◌, ◌++◌, ℕ, List, [], true, Ok};
ghost use Rattle.store_history.specs.History.{edits_of};
ghost use Rattle.pin_store.specs.Sheets.{IsSameButCells};
ghost use Rattle.pin_store.specs.Calls.{sheet_of, IsSeatOf};
ghost use Rattle.filter_state.specs.Lines.{IsLine};
ghost use Rattle.filter_state.specs.Steps.{step};
ghost use Rattle.hook_store_law.specs.OfEdits.Premises.{now, next};
ghost use Rattle.desk_pools.specs.declared.pools.Pools.{Pools};
ghost use Rattle.desk_pools.specs.Steps.{turned};
ghost use Rattle.desk_actions.specs.OfLedgers.Kept.{commits, base};
ghost use Rattle.desk_parts.specs.OfLineActions.Dropped.{AreDropped};
ghost use Rattle.desk_parts.specs.OfLineActions.Gone.{NamesGone};
ghost use Rattle.desk_needs.specs.Live.{count_of};
ghost use Rattle.desk_parts.specs.Desk.{IsDesk};
ghost use Rattle.desk_heads.specs.Handed.{idle_of};
ghost use Rattle.desk_parts.specs.OfWays.Ways.{Closes};
ghost use Rattle.shared_hook.specs.OfDeskEdits.Goes.{AreGone};
ghost use Rattle.shared_hook.specs.OfDeskEdits.Parting.{HaveLeft};

use crate::desk_edits::closing::close_in_head;
use crate::desk_edits::leading::lead_removal;
use crate::desk_edits::letting::let_go;
use desk_parts::Parts;
use filter_lists::{Done, Edit, Prepared};
use hook_store_law::HookStore;
use store_history::EditName;
use tc_base::Hook;

/// Does an edit that was made ready and that deletes the only filter of a mask, or a whole table, and makes
/// its commit: the hook gets its tables anew, the masks that went leave with all that they had, and those of
/// their filters' actions go that are live no more. The lists have the filters no more by then, so the caller
/// tells their actions, as they were before. It takes nothing out of the pools but the place of the tables.
pub fn take_masks<E: EditName<Edit>>(
    parts: &mut Parts,
    store: &HookStore,
    prepared: Prepared,
    gone: &[u32],
    hook: Hook,
) -> Done
    requires store { IsSeatOf store.now parts.old.ledger.writer.place }
    requires desk { IsDesk parts.old }
    requires ready { parts.old.ledger.lists ≡ prepared.lists }
    requires edit { (prepared.edit ≡ E.edit) × IsLine E.edit }
    requires way { Closes (commits parts.old.ledger) E.edit hook }
    requires gone { NamesGone (now (commits parts.old.ledger)) E.edit gone.now }
    requires few { parts.old.ledger.point + 1 < 2 ^ 32 }
    requires free { (idle_of hook parts.old.pools).is_free ≡ true }
    ensures store { IsSeatOf store.now parts.new.ledger.writer.place }
    ensures desk { IsDesk parts.new }
    ensures point { parts.new.ledger.point ≡ parts.old.ledger.point + 1 }
    ensures journal { edits_of (commits parts.new.ledger)
        ≡ edits_of (commits parts.old.ledger) ++ E.edit ∷ [] }
    ensures done { step (now (commits parts.old.ledger)) E.edit
        ≡ Ok (next (commits parts.old.ledger) E.edit, result) }
    ensures sheet { IsSameButCells (sheet_of parts.old.ledger.writer.place)
        (sheet_of parts.new.ledger.writer.place) }
    // what the masks had leaves, and then the actions
    ensures left { (between : Pools) × (masks : List ℕ)
        × AreGone (now (commits parts.old.ledger)) (next (commits parts.old.ledger) E.edit) masks
        × HaveLeft (count_of (now (commits parts.old.ledger))) (turned hook parts.old.pools) between masks
        × AreDropped between parts.new.pools parts.old.actions parts.new.actions
        (commits parts.new.ledger) (base parts.new.ledger) gone.now }
    ensures rest { parts.new ≡ record parts.old {
      ledger = parts.new.ledger;
      pools = parts.new.pools;
      actions = parts.new.actions;
      masks = parts.new.masks;
      ingress = parts.new.ingress;
      egress = parts.new.egress;
      room = parts.new.room;
    } }
{
    let done = lead_removal::<E>(parts, prepared);
    close_in_head::<E>(parts, store, hook);
    let_go(parts, gone);
    done
}
