//! A filter takes the place of another in a mask that stands.
ghost use Rattle.std.specs.Prelude.{◌≡◌, ◌<◌, ◌≤◌, ◌+◌, ◌^◌, ◌∷◌, ◌++◌, ℕ, List, [], length};
ghost use Rattle.std.specs.Prelude.{Some, vec_capacity};
ghost use Rattle.store_history.specs.History.{edits_of};
ghost use Rattle.pin_store.specs.Sheets.{IsSameButCells};
ghost use Rattle.pin_store.specs.Calls.{sheet_of, IsSeatOf};
ghost use Rattle.filter_state.specs.declared.edit.Edit.TheVariants as edits;
ghost use Rattle.filter_state.specs.declared.refusal.Done.TheVariants as dones;
ghost use Rattle.filter_state.specs.States.{Row};
ghost use Rattle.mask_table.specs.declared.mirrors.mirror.KeptMask.{KeptMask};
ghost use Rattle.mask_writer.specs.Standing.{StandsAt};
ghost use Rattle.hook_law.specs.Standing.{IsMaskAt};
ghost use Rattle.hook_store_law.specs.Stated.{filters_at};
ghost use Rattle.hook_store_law.specs.Blocks.{hook_codec};
ghost use Rattle.hook_store_law.specs.OfEdits.Premises.{now, named_row};
ghost use Rattle.desk_actions.specs.OfLedgers.Kept.{commits};
ghost use Rattle.desk_actions.specs.Effects.{IsCounted};
ghost use Rattle.desk_parts.specs.Desk.{IsDesk};
ghost use Rattle.shared_hook.specs.OfDeskEdits.Ahead.{IsAhead, GoesOnAside};
ghost use Rattle.desk_masks.specs.OfFilterCommits.Edits.{HasLater};

use crate::desk_edits::room::{Room, taken_blocks};
use desk_masks::filters::exchange_filter;
use desk_parts::Parts;
use desk_parts::filter_names::stored_filter;
use filter_state::{Done, Edit, FilterLine};
use hook_store_law::HookStore;
use store_history::EditName;

/// Puts the filter of a line, which the lists put in the place of the one with its handle, mask and key, in
/// this one's place in the mask at its slot, by the edit's commit. Of the old filter's bucket `later` filters
/// came after it: these go into blocks out of the pool, and the filter into one more. The blocks that they
/// had leave. The mask has as many filters as before, so its size stays.
pub fn exchange_in_mask<E: EditName<Edit>>(
    parts: &mut Parts,
    store: &HookStore,
    line: &FilterLine,
    done: &Done,
    slot: u32,
    later: u32,
    room: Room,
)
    requires store { IsSeatOf store.now parts.old.ledger.writer.place }
    requires ahead { IsAhead parts.old E.edit done.now }
    requires edit { E.edit ≡ edits.FilterReplace line.now }
    requires there { (pref : ℕ) × (handle : ℕ) × (serials : List ℕ) × (row : Row)
        × (done.now ≡ dones.Filter pref handle serials)
        × (named_row (now (commits parts.old.ledger)) line.now ≡ Some row)
        × (row.mask ≡ line.now.mask.words) × (row.key ≡ line.now.key.words)
        × IsMaskAt hook_codec (commits parts.old.ledger) row.mask_serial slot
        × ((kept : KeptMask) → StandsAt parts.old.masks slot kept
        → HasLater kept.mask.size handle
        (filters_at (now (commits parts.old.ledger)) kept.mask.serial) later) }
    requires room { (room.blocks.items ≡ []) × (room.rows.items ≡ []) × (later < vec_capacity room.blocks) }
    requires enough { later < length parts.old.pools.blocks.free }
    requires few { parts.old.ledger.point + 1 < 2 ^ 32 }
    ensures store { IsSeatOf store.now parts.new.ledger.writer.place }
    ensures desk { IsDesk parts.new }
    ensures point { parts.new.ledger.point ≡ parts.old.ledger.point + 1 }
    ensures journal { edits_of (commits parts.new.ledger)
        ≡ edits_of (commits parts.old.ledger) ++ E.edit ∷ [] }
    ensures on { GoesOnAside (commits parts.old.ledger) (commits parts.new.ledger) }
    ensures sheet { IsSameButCells (sheet_of parts.old.ledger.writer.place)
        (sheet_of parts.new.ledger.writer.place) }
    ensures blocks { IsCounted parts.old.pools.blocks parts.new.pools.blocks (later + 1) (later + 1) }
    ensures pools { parts.new.pools ≡ record parts.old.pools { blocks = parts.new.pools.blocks } }
    ensures lists { parts.new.ledger.lists ≡ parts.old.ledger.lists }
    ensures rest { parts.new ≡ record parts.old {
      ledger = parts.new.ledger;
      pools = parts.new.pools;
      masks = parts.new.masks;
    } }
{
    let filter = stored_filter(&parts.actions, line, done);
    let given = taken_blocks(&mut parts.pools, later + 1, room);
    exchange_filter::<E>(
        &mut parts.masks,
        &mut parts.ledger.writer,
        store,
        slot,
        &filter,
        &given,
        parts.ledger.point,
    );
    parts.pools.leave_blocks(parts.masks.left_blocks());
    parts.ledger.point += 1;
}
