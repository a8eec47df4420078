//! A filter is added to a mask that stands.
ghost use Rattle.std.specs.Prelude.{◌≡◌, ◌<◌, ◌≤◌, ◌+◌, ◌^◌, ◌∷◌, ◌++◌, ℕ, List, [], length};
ghost use Rattle.std.specs.Prelude.{Some, vec_capacity};
ghost use Rattle.store_history.specs.History.{edits_of};
ghost use Rattle.pin_store.specs.Sheets.{IsSameButCells};
ghost use Rattle.pin_store.specs.Calls.{sheet_of, IsSeatOf};
ghost use Rattle.filter_state.specs.declared.refusal.Done.TheVariants as dones;
ghost use Rattle.filter_state.specs.States.{Row};
ghost use Rattle.filter_state.specs.Tables.{mask_row};
ghost use Rattle.flow_mask.specs.Sizes.{size_of};
ghost use Rattle.mask_table.specs.declared.mirrors.mirror.KeptMask.{KeptMask};
ghost use Rattle.mask_writer.specs.Standing.{StandsAt};
ghost use Rattle.hook_law.specs.Standing.{IsMaskAt};
ghost use Rattle.hook_store_law.specs.Blocks.{hook_codec};
ghost use Rattle.hook_store_law.specs.OfEdits.Premises.{now, IsAddOf};
ghost use Rattle.desk_actions.specs.OfLedgers.Kept.{commits};
ghost use Rattle.desk_actions.specs.Effects.{IsCounted};
ghost use Rattle.desk_masks.specs.OfResizes.Refit.{count_now};
ghost use Rattle.shared_hook.specs.OfDeskEdits.Ahead.{IsAhead, IsUnsettled, GoesOnAside};

use crate::desk_edits::room::{Room, taken_blocks};
use desk_masks::filters::add_filter;
use desk_parts::Parts;
use desk_parts::filter_names::stored_filter;
use filter_state::{Done, Edit, FilterLine};
use hook_store_law::HookStore;
use store_history::EditName;

/// Puts the filter of a line, which the lists added to a mask that stands, into this mask, at its slot, by
/// the edit's commit. It goes into a block, which comes out of the pool. The mask may need another size then.
pub fn add_to_mask<E: EditName<Edit>>(
    parts: &mut Parts,
    store: &HookStore,
    line: &FilterLine,
    done: &Done,
    slot: u32,
    room: Room,
)
    requires store { IsSeatOf store.now parts.old.ledger.writer.place }
    requires ahead { IsAhead parts.old E.edit done.now }
    requires add { IsAddOf (now (commits parts.old.ledger)) line.now E.edit }
    requires there { (pref : ℕ) × (handle : ℕ) × (serials : List ℕ) × (row : Row)
        × (done.now ≡ dones.Filter pref handle serials)
        × (mask_row line.now.hook line.now.chain pref line.now.mask.words
        (now (commits parts.old.ledger)).rows ≡ Some row)
        × IsMaskAt hook_codec (commits parts.old.ledger) row.mask_serial slot }
    requires room { (room.blocks.items ≡ []) × (room.rows.items ≡ []) × (1 ≤ vec_capacity room.blocks) }
    requires enough { 0 < length parts.old.pools.blocks.free }
    requires few { parts.old.ledger.point + 1 < 2 ^ 32 }
    ensures store { IsSeatOf store.now parts.new.ledger.writer.place }
    ensures unsettled { (mask : ℕ) → IsMaskAt hook_codec (commits parts.old.ledger) mask slot
        → IsUnsettled parts.new mask slot }
    ensures point { parts.new.ledger.point ≡ parts.old.ledger.point + 1 }
    ensures journal { edits_of (commits parts.new.ledger)
        ≡ edits_of (commits parts.old.ledger) ++ E.edit ∷ [] }
    ensures on { GoesOnAside (commits parts.old.ledger) (commits parts.new.ledger) }
    ensures sheet { IsSameButCells (sheet_of parts.old.ledger.writer.place)
        (sheet_of parts.new.ledger.writer.place) }
    ensures blocks { IsCounted parts.old.pools.blocks parts.new.pools.blocks 1 0 }
    ensures pools { parts.new.pools ≡ record parts.old.pools { blocks = parts.new.pools.blocks } }
    // the mask has a filter more, and still the size for one fewer
    ensures count { (mask : ℕ) → IsMaskAt hook_codec (commits parts.old.ledger) mask slot
        → count_now (commits parts.new.ledger) mask ≡ count_now (commits parts.old.ledger) mask + 1 }
    ensures size { (mask : ℕ) (kept : KeptMask) → IsMaskAt hook_codec (commits parts.old.ledger) mask slot
        → StandsAt parts.new.masks slot kept
        → kept.mask.size ≡ size_of (count_now (commits parts.old.ledger) mask) }
    ensures lists { parts.new.ledger.lists ≡ parts.old.ledger.lists }
    ensures rest { parts.new ≡ record parts.old {
      ledger = parts.new.ledger;
      pools = parts.new.pools;
      masks = parts.new.masks;
    } }
{
    let filter = stored_filter(&parts.actions, line, done);
    let given = taken_blocks(&mut parts.pools, 1, room);
    add_filter::<E>(
        &mut parts.masks,
        &mut parts.ledger.writer,
        store,
        slot,
        &filter,
        &given,
        parts.ledger.point,
    );
    parts.ledger.point += 1;
}
