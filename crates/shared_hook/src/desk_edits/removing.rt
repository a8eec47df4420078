//! A filter goes out of a mask that has others.
ghost use Rattle.std.specs.Prelude.{◌≡◌, ◌<◌, ◌≤◌, ◌+◌, ◌^◌, ◌∷◌, ◌++◌, ℕ, List, [], length};
ghost use Rattle.std.specs.Prelude.{Option, Some, vec_capacity};
ghost use Rattle.tc_base.specs.declared.hook.Hook.{Hook};
ghost use Rattle.tc_base.specs.declared.hook.Proto.{Proto};
ghost use Rattle.store_history.specs.History.{edits_of};
ghost use Rattle.pin_store.specs.Sheets.{IsSameButCells};
ghost use Rattle.pin_store.specs.Calls.{sheet_of, IsSeatOf};
ghost use Rattle.filter_state.specs.declared.edit.Edit.TheVariants as edits;
ghost use Rattle.filter_state.specs.declared.refusal.Done.{Done};
ghost use Rattle.filter_state.specs.States.{Row};
ghost use Rattle.filter_state.specs.Tables.{filter_row};
ghost use Rattle.flow_mask.specs.Sizes.{size_of};
ghost use Rattle.hook_store_law.specs.OfEffects.Parts.{Stands};
ghost use Rattle.mask_table.specs.declared.mirrors.mirror.KeptMask.{KeptMask};
ghost use Rattle.mask_writer.specs.Standing.{StandsAt};
ghost use Rattle.hook_law.specs.Standing.{IsMaskAt};
ghost use Rattle.hook_store_law.specs.Stated.{filters_at};
ghost use Rattle.hook_store_law.specs.Blocks.{hook_codec};
ghost use Rattle.hook_store_law.specs.OfEdits.Premises.{now, next};
ghost use Rattle.desk_actions.specs.OfLedgers.Kept.{commits};
ghost use Rattle.desk_actions.specs.Effects.{IsCounted};
ghost use Rattle.desk_masks.specs.OfResizes.Refit.{count_now};
ghost use Rattle.shared_hook.specs.OfDeskEdits.Ahead.{IsAhead, IsUnsettled, GoesOnAside};
ghost use Rattle.desk_masks.specs.OfFilterCommits.Edits.{HasLater};

use crate::desk_edits::room::{Room, taken_blocks};
use desk_masks::filters::remove_filter;
use desk_parts::Parts;
use filter_state::Edit;
use hook_store_law::HookStore;
use store_history::EditName;

/// Takes the filter with a handle, which the lists deleted, out of the mask at its slot, which has others, by
/// the edit's commit. Of its bucket `later` filters came after it: these go into blocks out of the pool. The
/// blocks that they had leave, and the filter's own. The mask may need another size then.
pub fn take_from_mask<E: EditName<Edit>>(
    parts: &mut Parts,
    store: &HookStore,
    handle: u32,
    slot: u32,
    later: u32,
    room: Room,
)
    requires store { IsSeatOf store.now parts.old.ledger.writer.place }
    requires ahead { (done : Done) × IsAhead parts.old E.edit done }
    requires there { (hook : Hook) × (protocol : Option Proto) × (chain : ℕ) × (pref : ℕ) × (row : Row)
        × (E.edit ≡ edits.FilterDel hook protocol chain pref (Some handle))
        × (filter_row hook chain pref handle (now (commits parts.old.ledger)).rows ≡ Some row)
        × Stands (next (commits parts.old.ledger) E.edit) row.mask_serial
        × IsMaskAt hook_codec (commits parts.old.ledger) row.mask_serial slot }
    requires later { (kept : KeptMask) → StandsAt parts.old.masks slot kept
        → HasLater kept.mask.size handle
        (filters_at (now (commits parts.old.ledger)) kept.mask.serial) later }
    requires room { (room.blocks.items ≡ []) × (room.rows.items ≡ []) × (later ≤ vec_capacity room.blocks) }
    requires enough { later ≤ length parts.old.pools.blocks.free }
    requires few { parts.old.ledger.point + 1 < 2 ^ 32 }
    ensures store { IsSeatOf store.now parts.new.ledger.writer.place }
    ensures unsettled { (mask : ℕ) → IsMaskAt hook_codec (commits parts.old.ledger) mask slot
        → IsUnsettled parts.new mask slot }
    ensures point { parts.new.ledger.point ≡ parts.old.ledger.point + 1 }
    ensures journal { edits_of (commits parts.new.ledger)
        ≡ edits_of (commits parts.old.ledger) ++ E.edit ∷ [] }
    ensures on { GoesOnAside (commits parts.old.ledger) (commits parts.new.ledger) }
    ensures sheet { IsSameButCells (sheet_of parts.old.ledger.writer.place)
        (sheet_of parts.new.ledger.writer.place) }
    ensures blocks { IsCounted parts.old.pools.blocks parts.new.pools.blocks later (later + 1) }
    ensures pools { parts.new.pools ≡ record parts.old.pools { blocks = parts.new.pools.blocks } }
    // the mask has a filter fewer, and still the size for one more
    ensures count { (mask : ℕ) → IsMaskAt hook_codec (commits parts.old.ledger) mask slot
        → count_now (commits parts.new.ledger) mask + 1 ≡ count_now (commits parts.old.ledger) mask }
    ensures size { (mask : ℕ) (kept : KeptMask) → IsMaskAt hook_codec (commits parts.old.ledger) mask slot
        → StandsAt parts.new.masks slot kept
        → kept.mask.size ≡ size_of (count_now (commits parts.old.ledger) mask) }
    ensures lists { parts.new.ledger.lists ≡ parts.old.ledger.lists }
    ensures rest { parts.new ≡ record parts.old {
      ledger = parts.new.ledger;
      pools = parts.new.pools;
      masks = parts.new.masks;
    } }
{
    let given = taken_blocks(&mut parts.pools, later, room);
    remove_filter::<E>(
        &mut parts.masks,
        &mut parts.ledger.writer,
        store,
        slot,
        handle,
        &given,
        parts.ledger.point,
    );
    parts.pools.leave_blocks(parts.masks.left_blocks());
    parts.ledger.point += 1;
}
