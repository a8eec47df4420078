//! A mask is laid anew where nobody reads it.
ghost use Rattle.std.specs.Prelude.{◌≡◌, ◌≤◌, ◌<◌, ◌+◌, ◌/◌, ◌^◌, ◌++◌, ◌∷◌, List, [], length, All};
ghost use Rattle.visit_room.specs.declared.names.MaskName.{MaskName};
ghost use Rattle.pin_store.specs.Calls.{IsSeatOf};
ghost use Rattle.flow_mask.specs.Sizes.{size_of};
ghost use Rattle.filter_state.specs.declared.limits.TheConstants.{FILTERS_MAX};
ghost use Rattle.store_history.specs.declared.places.TheConstants.{ROW_BUCKETS};
ghost use Rattle.hook_store_law.specs.OfEffects.Parts.{words_of as words_in};
ghost use Rattle.mask_order.specs.Fitting.{FitsBlock};
ghost use Rattle.hook_store_law.specs.OfEdits.Premises.{next};
ghost use Rattle.desk_heads.specs.OfHeadCommits.Raised.{stored_next};
ghost use Rattle.desk_actions.specs.OfLedgers.Kept.{commits};
ghost use Rattle.desk_actions.specs.Effects.{IsCounted};
ghost use Rattle.desk_parts.specs.declared.parts.Parts.{Parts as TheParts};
ghost use Rattle.shared_hook.specs.OfDeskEdits.Spent.{HasRoom};
ghost use Rattle.shared_hook.specs.OfDeskEdits.OfMoves.Raises.{IsRaising};

use crate::desk_edits::{Room, take_for_mask};
use block_codec::StoredMask;
use desk_heads::moves::build_mask;
use desk_parts::Parts;
use filter_lists::Edit;
use flow_fields::Key;
use flow_mask::size_for;
use hook_store_law::HookStore;
use mask_build::rows_of;
use mask_table::mirrors::StoredFilters;
use store_history::EditName;
use store_history::places::ROW_BUCKETS;

// The words of a key: there are fourteen.
fn words_of(key: &Key<14>) -> &[u64]
    ensures words { result.now ≡ key.now.words }
    ensures count { length result.now ≡ 14 }
{
    &key.words
}

// The record of a mask with these words, rows and buckets.
fn mask_of(serial: u32, key: &Key<14>, size: u32, rows: &[u32]) -> StoredMask
    requires few { length rows.now ≤ 64 }
    ensures serial { result.serial ≡ serial }
    ensures size { result.size ≡ size }
    ensures words { result.mask.words ≡ key.now.words }
    ensures count { length key.now.words ≡ 14 }
    ensures rows { result.rows ≡ rows.now }
{
    // Called for its second clause: a mask that is stored has fourteen words.
    let _words = words_of(key);
    StoredMask {
        serial,
        size,
        mask: *key,
        rows: rows_of(rows),
    }
}

/// Lays a mask anew at a slot, in rows and in blocks that come out of the pools, with the filters that the
/// edit leaves it. It answers the slot.
pub(crate) fn lay_mask<E: EditName<Edit>>(
    parts: &mut Parts,
    store: &HookStore,
    serial: u32,
    words: &Key<14>,
    filters: &StoredFilters,
    count: u32,
    room: Room,
) -> u32
    requires store { IsSeatOf store.now parts.old.ledger.writer.place }
    requires raising { (start : TheParts) × (built : List MaskName)
        × IsRaising start parts.old E.edit built }
    requires filters { stored_next (commits parts.old.ledger) E.edit serial ≡ filters.now }
    requires fit { All FitsBlock filters.now }
    requires words { words_in (next (commits parts.old.ledger) E.edit) serial ≡ words.now.words }
    requires count { count ≡ length filters.now }
    requires few { (parts.old.ledger.point + 1 < 2 ^ 32) × (count ≤ FILTERS_MAX + 1)
        × (serial < 2 ^ 32) }
    requires enough { (count < length parts.old.pools.blocks.free)
        × (size_of count / ROW_BUCKETS ≤ length parts.old.pools.rows.free)
        × (0 < length parts.old.pools.masks.free) }
    requires room { HasRoom room (count + 1) (size_of count / ROW_BUCKETS) }
    ensures store { IsSeatOf store.now parts.new.ledger.writer.place }
    ensures raising { (start : TheParts) (built : List MaskName) → IsRaising start parts.old E.edit built
        → IsRaising start parts.new E.edit (built ++ record { serial = serial; slot = result } ∷ []) }
    ensures blocks { IsCounted parts.old.pools.blocks parts.new.pools.blocks (count + 1) 0 }
    ensures rows { IsCounted parts.old.pools.rows parts.new.pools.rows (size_of count / ROW_BUCKETS) 0 }
    ensures masks { IsCounted parts.old.pools.masks parts.new.pools.masks 1 0 }
{
    let size = size_for(count);
    let (slot, given) = take_for_mask(&mut parts.pools, count + 1, size / ROW_BUCKETS, room);
    let mask = mask_of(serial, words, size, given.rows.as_slice());
    build_mask::<E>(
        &mut parts.masks,
        &mut parts.ledger.writer,
        store,
        slot,
        &mask,
        filters,
        &given,
        parts.ledger.point,
    );
    slot
}
