//! The head's commit of an edit that moves a filter.
ghost use Rattle.std.specs.Prelude.{◌≡◌, ◌<◌, ◌+◌, ◌^◌, ℕ, List, true};
ghost use Rattle.pin_store.specs.Calls.{IsSeatOf};
ghost use Rattle.filter_state.specs.declared.refusal.Done.{Done};
ghost use Rattle.hook_store_law.specs.OfEdits.Premises.{now};
ghost use Rattle.desk_heads.specs.OfHeadCommits.Raised.{IsReady};
ghost use Rattle.hook_law.specs.Keeping.{IsAtRest};
ghost use Rattle.hook_store_law.specs.Stated.{hook_meaning};
ghost use Rattle.hook_store_law.specs.Blocks.{hook_codec};
ghost use Rattle.desk_pools.specs.Pools.{ArePools};
ghost use Rattle.desk_pools.specs.Steps.{turned};
ghost use Rattle.desk_actions.specs.OfLedgers.Kept.{commits, base};
ghost use Rattle.desk_masks.specs.Masks.{HasMasks};
ghost use Rattle.desk_needs.specs.Live.{count_of};
ghost use Rattle.desk_parts.specs.declared.parts.Parts.{Parts as TheParts};
ghost use Rattle.desk_parts.specs.Desk.{hook_shape, cells, AreSized};
ghost use Rattle.desk_heads.specs.Handed.{idle_of};
ghost use Rattle.desk_heads.specs.OfMoves.Builds.{HoldsBuilt, AreBuiltHanded};
ghost use Rattle.shared_hook.specs.OfDeskEdits.Ahead.{IsAhead};
ghost use Rattle.shared_hook.specs.OfDeskEdits.Parting.{HaveLeft};
ghost use Rattle.shared_hook.specs.OfDeskEdits.Swaps.{tables_of, with_tables, MaySwap, IsSwapped};
ghost use Rattle.shared_hook.specs.OfDeskEdits.OfMoves.Raises.{HaveTheirBlocks, IsRaising};
ghost use Rattle.shared_hook.specs.OfDeskEdits.OfMoves.Moves.{IsToMove, old_masks, IsMovedOn};

use crate::desk_edits::moves::parting::part_with_old;
use desk_actions::ledgers::Ledger;
use desk_heads::moves::move_masks;
use desk_masks::HookTables;
use desk_parts::Parts;
use desk_pools::Pools;
use filter_lists::Edit;
use hook_store_law::HookStore;
use mask_writer::MaskWriter;
use miniq_pair::StoredTables;
use store_history::EditName;
use tc_base::Hook;
use visit_room::MaskName;

// Makes the commit of the edit, on the parts of the desk that it concerns, and parts with the masks at their
// old slots.
fn move_on<E: EditName<Edit>>(
    ledger: &mut Ledger,
    pools: &mut Pools,
    masks: &mut MaskWriter,
    heads: &mut HookTables,
    room: &mut StoredTables,
    store: &HookStore,
    hook: Hook,
    built: &[MaskName],
    slot: u32,
    into: Option<u32>,
)
    requires store { IsSeatOf store.now ledger.old.writer.place }
    requires may { MaySwap hook E.edit ledger.old pools.old heads.old }
    requires ready { IsReady (commits ledger.old) (base ledger.old) E.edit
        × IsAtRest hook_meaning hook_codec (commits ledger.old) }
    requires holds { HoldsBuilt masks.old hook_shape (cells ledger.old) (commits ledger.old) (base ledger.old)
        E.edit built.now }
    requires handed { AreBuiltHanded pools.old masks.old built.now }
    requires blocks { HaveTheirBlocks masks.old (commits ledger.old) }
    requires moves { (to : ℕ) × (from : ℕ)
        × IsToMove (commits ledger.old) E.edit hook built.now slot into to from }
    requires sized { AreSized pools.old }
    requires few { ledger.old.point + 1 < 2 ^ 32 }
    ensures store { IsSeatOf store.now ledger.new.writer.place }
    ensures swapped { IsSwapped hook E.edit ledger.old ledger.new pools.old (turned hook pools.old) heads.old
        heads.new }
    ensures masks { HasMasks masks.new hook_shape (cells ledger.new) (commits ledger.new) }
    ensures pools { ArePools pools.new (commits ledger.new) (base ledger.new) }
    ensures left { (to from : ℕ) → IsToMove (commits ledger.old) E.edit hook built.now slot into to from
        → HaveLeft (count_of (now (commits ledger.old))) (turned hook pools.old) pools.new
        (old_masks to from into) }
    ensures sized { AreSized pools.new }
{
    move_masks::<E>(
        heads,
        room,
        &mut ledger.writer,
        store,
        &ledger.lists,
        hook,
        built,
        ledger.point,
    );
    pools.turn(hook);
    ledger.point += 1;
    part_with_old(masks, pools, slot, into);
}

// The same on a whole desk.
fn move_at<E: EditName<Edit>>(
    parts: &mut Parts,
    store: &HookStore,
    hook: Hook,
    built: &[MaskName],
    slot: u32,
    into: Option<u32>,
)
    requires store { IsSeatOf store.now parts.old.ledger.writer.place }
    requires may { MaySwap hook E.edit parts.old.ledger parts.old.pools (tables_of hook parts.old) }
    requires ready { IsReady (commits parts.old.ledger) (base parts.old.ledger) E.edit
        × IsAtRest hook_meaning hook_codec (commits parts.old.ledger) }
    requires holds { HoldsBuilt parts.old.masks hook_shape (cells parts.old.ledger)
        (commits parts.old.ledger) (base parts.old.ledger) E.edit built.now }
    requires handed { AreBuiltHanded parts.old.pools parts.old.masks built.now }
    requires blocks { HaveTheirBlocks parts.old.masks (commits parts.old.ledger) }
    requires moves { (to : ℕ) × (from : ℕ)
        × IsToMove (commits parts.old.ledger) E.edit hook built.now slot into to from }
    requires sized { AreSized parts.old.pools }
    requires few { parts.old.ledger.point + 1 < 2 ^ 32 }
    ensures store { IsSeatOf store.now parts.new.ledger.writer.place }
    ensures swapped { IsSwapped hook E.edit parts.old.ledger parts.new.ledger parts.old.pools
        (turned hook parts.old.pools) (tables_of hook parts.old) (tables_of hook parts.new) }
    ensures masks { HasMasks parts.new.masks hook_shape (cells parts.new.ledger)
        (commits parts.new.ledger) }
    ensures pools { ArePools parts.new.pools (commits parts.new.ledger) (base parts.new.ledger) }
    ensures left { (to from : ℕ)
        → IsToMove (commits parts.old.ledger) E.edit hook built.now slot into to from
        → HaveLeft (count_of (now (commits parts.old.ledger))) (turned hook parts.old.pools) parts.new.pools
        (old_masks to from into) }
    ensures sized { AreSized parts.new.pools }
    ensures rest { parts.new ≡ with_tables hook (tables_of hook parts.new) (record parts.old {
      ledger = parts.new.ledger;
      pools = parts.new.pools;
      masks = parts.new.masks;
      room = parts.new.room;
    }) }
{
    match hook {
        Hook::Ingress => move_on::<E>(
            &mut parts.ledger,
            &mut parts.pools,
            &mut parts.masks,
            &mut parts.ingress,
            &mut parts.room,
            store,
            hook,
            built,
            slot,
            into,
        ),
        Hook::Egress => move_on::<E>(
            &mut parts.ledger,
            &mut parts.pools,
            &mut parts.masks,
            &mut parts.egress,
            &mut parts.room,
            store,
            hook,
            built,
            slot,
            into,
        ),
    }
}

/// Makes the commit that carries the edit, once its masks are built: the hook gets its tables anew, and the
/// masks at their old slots leave, with all that they had.
pub(crate) fn move_in_head<E: EditName<Edit>>(
    parts: &mut Parts,
    store: &HookStore,
    hook: Hook,
    built: &[MaskName],
    slot: u32,
    into: Option<u32>,
)
    requires store { IsSeatOf store.now parts.old.ledger.writer.place }
    requires raising { (start : TheParts) × (done : Done) × IsAhead start E.edit done
        × IsRaising start parts.old E.edit built.now }
    requires moves { (to : ℕ) × (from : ℕ)
        × IsToMove (commits parts.old.ledger) E.edit hook built.now slot into to from }
    requires free { (idle_of hook parts.old.pools).is_free ≡ true }
    requires few { parts.old.ledger.point + 1 < 2 ^ 32 }
    ensures store { IsSeatOf store.now parts.new.ledger.writer.place }
    ensures moved { IsMovedOn parts.old parts.new E.edit hook }
    ensures left { (to from : ℕ)
        → IsToMove (commits parts.old.ledger) E.edit hook built.now slot into to from
        → HaveLeft (count_of (now (commits parts.old.ledger))) (turned hook parts.old.pools) parts.new.pools
        (old_masks to from into) }
{
    move_at::<E>(parts, store, hook, built, slot, into);
}
