//! The mask of an edit gets another size, where it needs one.
ghost use Rattle.std.specs.Prelude.{◌≡◌, ◌≤◌, ℕ, length};
ghost use Rattle.store_history.specs.History.{edits_of};
ghost use Rattle.pin_store.specs.Sheets.{IsSameButCells};
ghost use Rattle.pin_store.specs.Calls.{sheet_of, IsSeatOf};
ghost use Rattle.flow_mask.specs.Sizes.{size_of};
ghost use Rattle.mask_table.specs.declared.mirrors.mirror.KeptMask.{KeptMask};
ghost use Rattle.mask_writer.specs.Standing.{StandsAt};
ghost use Rattle.desk_needs.specs.OfEditNeeds.Told.{blocks_anew, rows_anew};
ghost use Rattle.desk_actions.specs.OfLedgers.Kept.{commits};
ghost use Rattle.desk_actions.specs.Effects.{IsCounted};
ghost use Rattle.desk_parts.specs.Desk.{IsDesk};
ghost use Rattle.desk_masks.specs.OfResizes.Refit.{count_now};
ghost use Rattle.shared_hook.specs.OfDeskEdits.Ahead.{IsUnsettled, GoesOnAside};
ghost use Rattle.shared_hook.specs.OfDeskEdits.Spent.{HasRoom};

use crate::desk_edits::room::Room;
use crate::desk_edits::settling::resize_mask;
use desk_parts::Parts;
use filter_state::Edit;
use flow_mask::size_for;
use hook_store_law::HookStore;
use store_history::EditName;

// The mask at a slot had `before` filters and has `after` now. Where these ask for another size, it is laid
// anew with it: rows and blocks that it had leave.
pub fn fit_mask<E: EditName<Edit>>(
    parts: &mut Parts,
    store: &HookStore,
    slot: u32,
    before: u32,
    after: u32,
    room: Room,
)
    requires store { IsSeatOf store.now parts.old.ledger.writer.place }
    requires unsettled { (mask : ℕ) × IsUnsettled parts.old mask slot
        × (after ≡ count_now (commits parts.old.ledger) mask)
        × ((kept : KeptMask) → StandsAt parts.old.masks slot kept → kept.mask.size ≡ size_of before) }
    requires room { HasRoom room (blocks_anew before after) (rows_anew before after) }
    requires enough { (blocks_anew before after ≤ length parts.old.pools.blocks.free)
        × (rows_anew before after ≤ length parts.old.pools.rows.free) }
    ensures store { IsSeatOf store.now parts.new.ledger.writer.place }
    ensures desk { IsDesk parts.new }
    ensures point { parts.new.ledger.point ≡ parts.old.ledger.point }
    ensures journal { edits_of (commits parts.new.ledger) ≡ edits_of (commits parts.old.ledger) }
    ensures on { GoesOnAside (commits parts.old.ledger) (commits parts.new.ledger) }
    ensures sheet { IsSameButCells (sheet_of parts.old.ledger.writer.place)
        (sheet_of parts.new.ledger.writer.place) }
    ensures blocks { IsCounted parts.old.pools.blocks parts.new.pools.blocks (blocks_anew before after)
        (blocks_anew before after) }
    ensures rows { IsCounted parts.old.pools.rows parts.new.pools.rows (rows_anew before after)
        (rows_anew after before) }
    ensures pools { parts.new.pools
        ≡ record parts.old.pools { blocks = parts.new.pools.blocks; rows = parts.new.pools.rows } }
    ensures lists { parts.new.ledger.lists ≡ parts.old.ledger.lists }
    ensures rest { parts.new ≡ record parts.old {
      ledger = parts.new.ledger;
      pools = parts.new.pools;
      masks = parts.new.masks;
    } }
{
    if size_for(after) != size_for(before) {
        resize_mask::<E>(parts, store, slot, after, room);
    }
}
