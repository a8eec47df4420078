//! The mask that a filter leaves.
ghost use Rattle.std.specs.Prelude.{◌≡◌, ◌≤◌, ◌<◌, ◌+◌, ◌-◌, ◌^◌, ◌∷◌, ℕ, [], length, true};
ghost use Rattle.pin_store.specs.Calls.{IsSeatOf};
ghost use Rattle.filter_state.specs.declared.limits.TheConstants.{FILTERS_MAX};
ghost use Rattle.desk_needs.specs.OfEditNeeds.Told.{laid, laid_rows, laid_masks};
ghost use Rattle.desk_actions.specs.OfLedgers.Kept.{commits};
ghost use Rattle.desk_actions.specs.Effects.{IsCounted};
ghost use Rattle.desk_parts.specs.declared.parts.Parts.{Parts as TheParts};
ghost use Rattle.desk_heads.specs.Handed.{idle_of};
ghost use Rattle.shared_hook.specs.OfDeskEdits.Ahead.{IsAhead};
ghost use Rattle.shared_hook.specs.OfDeskEdits.OfMoves.Rooms.{HasMaskRoom};
ghost use Rattle.shared_hook.specs.OfDeskEdits.OfMoves.Raises.{IsRaising};
ghost use Rattle.shared_hook.specs.OfDeskEdits.OfMoves.Moves.{IsToLeave, IsMovedOn};

use crate::desk_edits::moves::mask_room::MaskRoom;
use crate::desk_edits::moves::moving::move_in_head;
use crate::desk_edits::moves::raising::raise_mask;
use desk_parts::Parts;
use filter_lists::{Done, Edit, FilterLine};
use flow_fields::Key;
use hook_store_law::HookStore;
use std::slice;
use store_history::EditName;
use visit_room::MaskName;

/// The second half of an edit that moves a filter to another mask, which is laid: the mask at the slot, which
/// it leaves, had so many filters. Where it has others, it is laid anew without the filter. Then comes the
/// commit that carries the edit, and both masks leave their old places.
pub(crate) fn leave_mask<E: EditName<Edit>>(
    parts: &mut Parts,
    store: &HookStore,
    line: &FilterLine,
    done: &Done,
    words: &Key<14>,
    first: MaskName,
    slot: u32,
    count: u32,
    into: Option<u32>,
    room: MaskRoom,
)
    requires store { IsSeatOf store.now parts.old.ledger.writer.place }
    requires raising { (start : TheParts) × IsAhead start E.edit done.now
        × IsRaising start parts.old E.edit (first ∷ []) }
    requires leave { (others : ℕ) × (to : ℕ) × (from : ℕ) × IsToLeave (commits parts.old.ledger) E.edit
        line.now done.now words.now.words first slot count into others to from }
    requires few { (parts.old.ledger.point + 1 < 2 ^ 32) × (count ≤ FILTERS_MAX) }
    requires enough { (laid (count - 1) ≤ length parts.old.pools.blocks.free)
        × (laid_rows (count - 1) ≤ length parts.old.pools.rows.free)
        × (laid_masks (count - 1) ≤ length parts.old.pools.masks.free) }
    requires free { (idle_of line.now.hook parts.old.pools).is_free ≡ true }
    requires room { HasMaskRoom room (count - 1) }
    ensures store { IsSeatOf store.now parts.new.ledger.writer.place }
    ensures moved { (start : TheParts) → IsAhead start E.edit done.now
        → IsRaising start parts.old E.edit (first ∷ []) → IsMovedOn start parts.new E.edit line.now.hook }
    ensures blocks { (others to from : ℕ) → IsToLeave (commits parts.old.ledger) E.edit line.now done.now
        words.now.words first slot count into others to from
        → IsCounted parts.old.pools.blocks parts.new.pools.blocks (laid (count - 1))
        (laid count + laid others) }
    ensures rows { (others to from : ℕ) → IsToLeave (commits parts.old.ledger) E.edit line.now done.now
        words.now.words first slot count into others to from
        → IsCounted parts.old.pools.rows parts.new.pools.rows (laid_rows (count - 1))
        (laid_rows count + laid_rows others) }
    ensures masks { (others to from : ℕ) → IsToLeave (commits parts.old.ledger) E.edit line.now done.now
        words.now.words first slot count into others to from
        → IsCounted parts.old.pools.masks parts.new.pools.masks (laid_masks (count - 1))
        (laid_masks count + laid_masks others) }
{
    if count > 1 {
        let second = raise_mask::<E>(parts, store, line, done, words, count - 1, room);
        move_in_head::<E>(parts, store, line.hook, &[first, second], slot, into);
    } else {
        move_in_head::<E>(parts, store, line.hook, slice::from_ref(&first), slot, into);
    }
}
