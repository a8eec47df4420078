//! A mask is read off the lists and laid anew.
ghost use Rattle.std.specs.Prelude.{◌≡◌, ◌≤◌, ◌<◌, ◌+◌, ◌^◌, ◌++◌, ◌∷◌, ℕ, List, [], length};
ghost use Rattle.visit_room.specs.declared.names.MaskName.{MaskName as Name};
ghost use Rattle.pin_store.specs.Calls.{IsSeatOf};
ghost use Rattle.filter_state.specs.declared.limits.TheConstants.{FILTERS_MAX};
ghost use Rattle.miniq_pair.specs.Heads.{hook_number};
ghost use Rattle.hook_store_law.specs.Stated.{tables_at};
ghost use Rattle.hook_store_law.specs.OfEdits.Premises.{next};
ghost use Rattle.desk_heads.specs.OfHeadCommits.Listed.{HasSerial};
ghost use Rattle.desk_needs.specs.OfEditNeeds.Told.{laid, laid_rows, laid_masks};
ghost use Rattle.desk_actions.specs.OfLedgers.Kept.{commits};
ghost use Rattle.desk_actions.specs.Effects.{IsCounted};
ghost use Rattle.desk_parts.specs.declared.parts.Parts.{Parts as TheParts};
ghost use Rattle.shared_hook.specs.OfDeskEdits.OfMoves.Rooms.{HasMaskRoom};
ghost use Rattle.shared_hook.specs.OfDeskEdits.OfMoves.Raises.{IsRaising, IsToLay};

use crate::desk_edits::moves::laying::lay_mask;
use crate::desk_edits::moves::mask_room::MaskRoom;
use crate::desk_edits::moves::telling::tell_mask;
use desk_parts::Parts;
use filter_lists::{Done, Edit, FilterLine};
use flow_fields::Key;
use hook_store_law::HookStore;
use store_history::EditName;
use visit_room::MaskName;

/// Lays the mask with those words anew, as the edit leaves it, with so many filters: its filters are read off
/// the lists, which are one edit ahead. It answers the mask with its new slot.
pub(crate) fn raise_mask<E: EditName<Edit>>(
    parts: &mut Parts,
    store: &HookStore,
    line: &FilterLine,
    done: &Done,
    words: &Key<14>,
    count: u32,
    room: MaskRoom,
) -> MaskName
    requires store { IsSeatOf store.now parts.old.ledger.writer.place }
    requires raising { (start : TheParts) × (built : List Name) × IsRaising start parts.old E.edit built }
    requires lay { (serial : ℕ)
        × IsToLay (commits parts.old.ledger) E.edit line.now done.now words.now.words count serial }
    requires few { (parts.old.ledger.point + 1 < 2 ^ 32) × (count ≤ FILTERS_MAX + 1) }
    requires enough { (laid count ≤ length parts.old.pools.blocks.free)
        × (laid_rows count ≤ length parts.old.pools.rows.free)
        × (laid_masks count ≤ length parts.old.pools.masks.free) }
    requires room { HasMaskRoom room count }
    ensures store { IsSeatOf store.now parts.new.ledger.writer.place }
    ensures serial { (serial : ℕ)
        → IsToLay (commits parts.old.ledger) E.edit line.now done.now words.now.words count serial
        → result.serial ≡ serial }
    ensures raising { (start : TheParts) (built : List Name) → IsRaising start parts.old E.edit built
        → IsRaising start parts.new E.edit (built ++ result ∷ []) }
    ensures here { HasSerial (tables_at (next (commits parts.old.ledger) E.edit) (hook_number line.now.hook))
        result.serial }
    ensures blocks { IsCounted parts.old.pools.blocks parts.new.pools.blocks (laid count) 0 }
    ensures rows { IsCounted parts.old.pools.rows parts.new.pools.rows (laid_rows count) 0 }
    ensures masks { IsCounted parts.old.pools.masks parts.new.pools.masks (laid_masks count) 0 }
{
    let (serial, filters) = tell_mask(
        &parts.ledger.lists,
        &parts.actions,
        line,
        done,
        words,
        room.filters,
    );
    let slot = lay_mask::<E>(parts, store, serial, words, &filters, count, room.numbers);
    MaskName { serial, slot }
}
