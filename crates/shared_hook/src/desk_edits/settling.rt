//! The mask of an edit gets the size that its filters need.
ghost use Rattle.std.specs.Prelude.{◌≡◌, ◌<◌, ◌≤◌, ◌+◌, ◌*◌, ◌/◌, ℕ, [], length, vec_capacity};
ghost use Rattle.store_history.specs.History.{edits_of};
ghost use Rattle.pin_store.specs.Sheets.{IsSameButCells};
ghost use Rattle.pin_store.specs.Calls.{sheet_of, IsSeatOf};
ghost use Rattle.flow_mask.specs.Sizes.{size_of};
ghost use Rattle.mask_table.specs.declared.mirrors.mirror.KeptMask.{KeptMask};
ghost use Rattle.mask_writer.specs.Standing.{StandsAt};
ghost use Rattle.desk_actions.specs.OfLedgers.Kept.{commits};
ghost use Rattle.desk_actions.specs.Effects.{IsCounted};
ghost use Rattle.desk_parts.specs.declared.parts.Parts.{Parts};
ghost use Rattle.desk_parts.specs.Desk.{IsDesk};
ghost use Rattle.desk_masks.specs.OfResizes.Refit.{count_now};
ghost use Rattle.shared_hook.specs.OfDeskEdits.Ahead.{IsUnsettled, GoesOnAside};

use crate::desk_edits::room::{Room, taken_numbers};
use desk_masks::resizes::fit;
use desk_parts::Parts;
use filter_state::Edit;
use flow_mask::size_for;
use hook_store_law::HookStore;
use store_history::EditName;

/// Where the mask has the size for its filters, the desk is settled.
pub fn settled_masks()
    ensures { (parts : Parts) (mask slot : ℕ) (kept : KeptMask) → IsUnsettled parts mask slot
        → StandsAt parts.masks slot kept → kept.mask.size ≡ size_of (count_now (commits parts.ledger) mask)
        → IsDesk parts }
{}

/// Lays the mask at a slot, which has so many filters, anew with the size for them: into rows that come out
/// of the pool, and blocks, one for each filter and one for the record. Rows and blocks that it had leave.
pub fn resize_mask<E: EditName<Edit>>(
    parts: &mut Parts,
    store: &HookStore,
    slot: u32,
    filters: u32,
    room: Room,
)
    requires store { IsSeatOf store.now parts.old.ledger.writer.place }
    requires unsettled { (mask : ℕ) × IsUnsettled parts.old mask slot
        × (filters ≡ count_now (commits parts.old.ledger) mask) }
    requires room { (room.blocks.items ≡ []) × (room.rows.items ≡ []) }
    requires capacity { (filters < vec_capacity room.blocks)
        × (size_of filters ≤ 16 * vec_capacity room.rows) }
    requires enough { (filters < length parts.old.pools.blocks.free)
        × (size_of filters ≤ 16 * length parts.old.pools.rows.free) }
    ensures store { IsSeatOf store.now parts.new.ledger.writer.place }
    ensures desk { IsDesk parts.new }
    ensures point { parts.new.ledger.point ≡ parts.old.ledger.point }
    ensures journal { edits_of (commits parts.new.ledger) ≡ edits_of (commits parts.old.ledger) }
    ensures on { GoesOnAside (commits parts.old.ledger) (commits parts.new.ledger) }
    ensures sheet { IsSameButCells (sheet_of parts.old.ledger.writer.place)
        (sheet_of parts.new.ledger.writer.place) }
    ensures blocks { IsCounted parts.old.pools.blocks parts.new.pools.blocks (filters + 1) (filters + 1) }
    ensures rows { (kept : KeptMask) → StandsAt parts.old.masks slot kept → IsCounted parts.old.pools.rows
        parts.new.pools.rows (size_of filters / 16) (kept.mask.size / 16) }
    ensures pools { parts.new.pools
        ≡ record parts.old.pools { blocks = parts.new.pools.blocks; rows = parts.new.pools.rows } }
    ensures lists { parts.new.ledger.lists ≡ parts.old.ledger.lists }
    ensures rest { parts.new ≡ record parts.old {
      ledger = parts.new.ledger;
      pools = parts.new.pools;
      masks = parts.new.masks;
    } }
{
    let size = size_for(filters);
    let given = taken_numbers(&mut parts.pools, filters + 1, size / 16, room);
    fit::<E>(
        &mut parts.masks,
        &mut parts.ledger.writer,
        store,
        &mut parts.pools,
        slot,
        size,
        &given,
        parts.ledger.point,
    );
}
