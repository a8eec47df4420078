//! Masks go with their filters.
ghost use Rattle.std.specs.Prelude.{◌≡◌, ◌≢◌, ◌<◌, ◌+◌, ◌^◌, ◌++◌, ◌∷◌, ℕ, List, [], true};
ghost use Rattle.tc_base.specs.declared.hook.Hook.{Hook as ThisHook};
ghost use Rattle.store_history.specs.History.{edits_of};
ghost use Rattle.pin_store.specs.Sheets.{IsSameButCells};
ghost use Rattle.pin_store.specs.Calls.{sheet_of, IsSeatOf};
ghost use Rattle.filter_state.specs.declared.refusal.Done.{Done};
ghost use Rattle.hook_store_law.specs.OfEdits.Premises.{now, next};
ghost use Rattle.desk_pools.specs.Pools.{ArePools};
ghost use Rattle.desk_pools.specs.Steps.{turned};
ghost use Rattle.desk_actions.specs.OfLedgers.Kept.{commits, base};
ghost use Rattle.desk_masks.specs.Masks.{HasMasks};
ghost use Rattle.desk_needs.specs.Live.{count_of};
ghost use Rattle.desk_parts.specs.Desk.{hook_shape, cells, AreSized, IsDesk};
ghost use Rattle.shared_hook.specs.OfDeskEdits.Ahead.{IsAhead, GoesOnAside};
ghost use Rattle.desk_heads.specs.Closes.{ClosesMasks};
ghost use Rattle.desk_heads.specs.Handed.{idle_of};
ghost use Rattle.desk_parts.specs.OfWays.Ways.{Closes};
ghost use Rattle.shared_hook.specs.OfDeskEdits.Goes.{AreGone};
ghost use Rattle.shared_hook.specs.OfDeskEdits.Parting.{HaveLeft};
ghost use Rattle.shared_hook.specs.OfDeskEdits.Swaps.{tables_of, with_tables, MaySwap, IsSwapped};

use crate::desk_edits::leaving::part_with_gone;
use desk_actions::ledgers::Ledger;
use desk_heads::close_masks;
use desk_masks::HookTables;
use desk_parts::Parts;
use desk_pools::Pools;
use filter_lists::Edit;
use hook_store_law::HookStore;
use mask_writer::MaskWriter;
use miniq_pair::StoredTables;
use store_history::EditName;
use tc_base::Hook;

// Makes the commit of the edit, on the parts of the desk that it concerns, and parts with the masks that
// went.
fn close_on<E: EditName<Edit>>(
    ledger: &mut Ledger,
    pools: &mut Pools,
    masks: &mut MaskWriter,
    heads: &mut HookTables,
    room: &mut StoredTables,
    store: &HookStore,
    hook: Hook,
)
    requires store { IsSeatOf store.now ledger.old.writer.place }
    requires may { MaySwap hook E.edit ledger.old pools.old heads.old }
    requires masks { HasMasks masks.old hook_shape (cells ledger.old) (commits ledger.old) }
    requires closes { ClosesMasks (commits ledger.old) (base ledger.old) E.edit hook }
    requires sized { AreSized pools.old }
    requires few { ledger.old.point + 1 < 2 ^ 32 }
    ensures store { IsSeatOf store.now ledger.new.writer.place }
    ensures swapped { IsSwapped hook E.edit ledger.old ledger.new pools.old (turned hook pools.old) heads.old
        heads.new }
    ensures masks { HasMasks masks.new hook_shape (cells ledger.new) (commits ledger.new) }
    ensures pools { ArePools pools.new (commits ledger.new) (base ledger.new) }
    ensures left { (gone : List ℕ)
        × AreGone (now (commits ledger.old)) (next (commits ledger.old) E.edit) gone
        × HaveLeft (count_of (now (commits ledger.old))) (turned hook pools.old) pools.new gone }
    ensures sized { AreSized pools.new }
{
    close_masks::<E>(
        heads,
        room,
        &mut ledger.writer,
        store,
        &ledger.lists,
        hook,
        ledger.point,
    );
    pools.turn(hook);
    ledger.point += 1;
    part_with_gone(masks, pools, room.as_slice(), heads.tables.as_slice());
}

// The same on a whole desk.
fn close_at<E: EditName<Edit>>(parts: &mut Parts, store: &HookStore, hook: Hook)
    requires store { IsSeatOf store.now parts.old.ledger.writer.place }
    requires may { MaySwap hook E.edit parts.old.ledger parts.old.pools (tables_of hook parts.old) }
    requires masks { HasMasks parts.old.masks hook_shape (cells parts.old.ledger)
        (commits parts.old.ledger) }
    requires closes { ClosesMasks (commits parts.old.ledger) (base parts.old.ledger) E.edit hook }
    requires sized { AreSized parts.old.pools }
    requires few { parts.old.ledger.point + 1 < 2 ^ 32 }
    ensures store { IsSeatOf store.now parts.new.ledger.writer.place }
    ensures swapped { IsSwapped hook E.edit parts.old.ledger parts.new.ledger parts.old.pools
        (turned hook parts.old.pools) (tables_of hook parts.old) (tables_of hook parts.new) }
    ensures masks { HasMasks parts.new.masks hook_shape (cells parts.new.ledger)
        (commits parts.new.ledger) }
    ensures pools { ArePools parts.new.pools (commits parts.new.ledger) (base parts.new.ledger) }
    ensures left { (gone : List ℕ) × AreGone (now (commits parts.old.ledger))
        (next (commits parts.old.ledger) E.edit) gone
        × HaveLeft (count_of (now (commits parts.old.ledger))) (turned hook parts.old.pools) parts.new.pools
        gone }
    ensures sized { AreSized parts.new.pools }
    ensures rest { parts.new ≡ with_tables hook (tables_of hook parts.new) (record parts.old {
      ledger = parts.new.ledger;
      pools = parts.new.pools;
      masks = parts.new.masks;
      room = parts.new.room;
    }) }
{
    match hook {
        Hook::Ingress => close_on::<E>(
            &mut parts.ledger,
            &mut parts.pools,
            &mut parts.masks,
            &mut parts.ingress,
            &mut parts.room,
            store,
            hook,
        ),
        Hook::Egress => close_on::<E>(
            &mut parts.ledger,
            &mut parts.pools,
            &mut parts.masks,
            &mut parts.egress,
            &mut parts.room,
            store,
            hook,
        ),
    }
}

/// Does an edit that deletes filters with their masks: the only filter of a mask, or a whole table. One
/// commit, which carries the edit that `E` names, gives the hook its tables anew. Then the writer of masks
/// parts with the masks that went: for each its slot leaves, its rows, and the blocks of its record and of
/// its filters.
pub fn close_in_head<E: EditName<Edit>>(parts: &mut Parts, store: &HookStore, hook: Hook)
    requires store { IsSeatOf store.now parts.old.ledger.writer.place }
    requires ahead { (done : Done) × IsAhead parts.old E.edit done }
    requires takes { Closes (commits parts.old.ledger) E.edit hook }
    requires free { (idle_of hook parts.old.pools).is_free ≡ true }
    requires few { parts.old.ledger.point + 1 < 2 ^ 32 }
    ensures store { IsSeatOf store.now parts.new.ledger.writer.place }
    ensures desk { IsDesk parts.new }
    ensures point { parts.new.ledger.point ≡ parts.old.ledger.point + 1 }
    ensures journal { edits_of (commits parts.new.ledger)
        ≡ edits_of (commits parts.old.ledger) ++ E.edit ∷ [] }
    ensures aside { GoesOnAside (commits parts.old.ledger) (commits parts.new.ledger) }
    ensures lists { parts.new.ledger.lists ≡ parts.old.ledger.lists }
    ensures sheet { IsSameButCells (sheet_of parts.old.ledger.writer.place)
        (sheet_of parts.new.ledger.writer.place) }
    ensures left { (gone : List ℕ) × AreGone (now (commits parts.old.ledger))
        (next (commits parts.old.ledger) E.edit) gone
        × HaveLeft (count_of (now (commits parts.old.ledger))) (turned hook parts.old.pools) parts.new.pools
        gone }
    ensures tables { (other : ThisHook) → hook ≢ other
        → tables_of other parts.new ≡ tables_of other parts.old }
    ensures rest { parts.new ≡ record parts.old {
      ledger = parts.new.ledger;
      pools = parts.new.pools;
      masks = parts.new.masks;
      ingress = parts.new.ingress;
      egress = parts.new.egress;
      room = parts.new.room;
    } }
{
    close_at::<E>(parts, store, hook);
}
