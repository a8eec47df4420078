//! A filter is put into a mask of its own.
ghost use Rattle.std.specs.Prelude.{◌≡◌, ◌≢◌, ◌≤◌, ◌<◌, ◌+◌, ◌^◌, ◌++◌, ◌∷◌, ℕ, List, [], length, true, None};
ghost use Rattle.std.specs.Prelude.{vec_capacity};
ghost use Rattle.tc_base.specs.declared.hook.Hook.{Hook as ThisHook};
ghost use Rattle.store_history.specs.History.{edits_of};
ghost use Rattle.pin_store.specs.Sheets.{IsSameButCells};
ghost use Rattle.pin_store.specs.Calls.{sheet_of, IsSeatOf};
ghost use Rattle.filter_state.specs.declared.refusal.Done.TheVariants as dones;
ghost use Rattle.filter_state.specs.Tables.{mask_row};
ghost use Rattle.mask_table.specs.OfMirrors.Given.{AreGiven};
ghost use Rattle.hook_store_law.specs.OfEdits.Premises.{now, IsAddOf};
ghost use Rattle.desk_pools.specs.Steps.{turned};
ghost use Rattle.desk_actions.specs.OfLedgers.Kept.{commits, base};
ghost use Rattle.desk_actions.specs.Effects.{IsCounted};
ghost use Rattle.desk_masks.specs.Masks.{HasMasks};
ghost use Rattle.desk_parts.specs.Desk.{hook_shape, cells, IsDesk};
ghost use Rattle.shared_hook.specs.OfDeskEdits.Ahead.{IsAhead, GoesOnAside};
ghost use Rattle.desk_heads.specs.Opens.{OpensMask};
ghost use Rattle.desk_heads.specs.Handed.{idle_of, AreHanded};
ghost use Rattle.shared_hook.specs.OfDeskEdits.Swaps.{tables_of, with_tables, MaySwap, IsSwapped};

use crate::desk_edits::room::Room;
use crate::desk_edits::serials::serial_of;
use crate::desk_edits::taking::take_for_mask;
use block_codec::{StoredFilter, StoredMask};
use desk_actions::ledgers::Ledger;
use desk_heads::open_mask;
use desk_masks::HookTables;
use desk_parts::Parts;
use desk_parts::filter_names::stored_filter;
use desk_pools::Pools;
use filter_lists::{Done, Edit, FilterLine};
use flow_fields::Key;
use hook_store_law::HookStore;
use mask_build::rows_of;
use mask_writer::{Blocks, MaskWriter};
use miniq_pair::StoredTables;
use store_history::EditName;
use store_history::places::ROW_BUCKETS;
use tc_base::Hook;

// The words of a key: there are fourteen.
fn words_of(key: &Key<14>) -> &[u64]
    ensures words { result.now ≡ key.now.words }
    ensures count { length result.now ≡ 14 }
{
    &key.words
}

// Makes the commits of the edit, on the parts of the desk that they concern.
fn open_on<E: EditName<Edit>>(
    ledger: &mut Ledger,
    pools: &mut Pools,
    masks: &mut MaskWriter,
    heads: &mut HookTables,
    room: &mut StoredTables,
    store: &HookStore,
    hook: Hook,
    slot: u32,
    mask: &StoredMask,
    filter: &StoredFilter,
    given: &Blocks,
)
    requires store { IsSeatOf store.now ledger.old.writer.place }
    requires may { MaySwap hook E.edit ledger.old pools.old heads.old }
    requires masks { HasMasks masks.old hook_shape (cells ledger.old) (commits ledger.old) }
    requires opens { OpensMask (commits ledger.old) (base ledger.old) E.edit hook slot mask.now filter.now
        given.now.blocks }
    requires given { (length given.now.blocks ≡ 2)
        × AreGiven (base ledger.old) (commits ledger.old) given.now.blocks }
    requires handed { AreHanded pools.old given.now.blocks mask.now.rows slot }
    requires few { ledger.old.point + 1 < 2 ^ 32 }
    ensures store { IsSeatOf store.now ledger.new.writer.place }
    ensures swapped { IsSwapped hook E.edit ledger.old ledger.new pools.old pools.new heads.old heads.new }
    ensures masks { HasMasks masks.new hook_shape (cells ledger.new) (commits ledger.new) }
{
    open_mask::<E>(
        masks,
        heads,
        room,
        &mut ledger.writer,
        store,
        &ledger.lists,
        hook,
        slot,
        mask,
        filter,
        given,
        ledger.point,
    );
    pools.turn(hook);
    ledger.point += 1;
}

// The same on a whole desk.
fn open_at<E: EditName<Edit>>(
    parts: &mut Parts,
    store: &HookStore,
    hook: Hook,
    slot: u32,
    mask: &StoredMask,
    filter: &StoredFilter,
    given: &Blocks,
)
    requires store { IsSeatOf store.now parts.old.ledger.writer.place }
    requires may { MaySwap hook E.edit parts.old.ledger parts.old.pools (tables_of hook parts.old) }
    requires masks { HasMasks parts.old.masks hook_shape (cells parts.old.ledger)
        (commits parts.old.ledger) }
    requires opens { OpensMask (commits parts.old.ledger) (base parts.old.ledger) E.edit hook slot mask.now
        filter.now given.now.blocks }
    requires given { (length given.now.blocks ≡ 2)
        × AreGiven (base parts.old.ledger) (commits parts.old.ledger) given.now.blocks }
    requires handed { AreHanded parts.old.pools given.now.blocks mask.now.rows slot }
    requires few { parts.old.ledger.point + 1 < 2 ^ 32 }
    ensures store { IsSeatOf store.now parts.new.ledger.writer.place }
    ensures swapped { IsSwapped hook E.edit parts.old.ledger parts.new.ledger parts.old.pools parts.new.pools
        (tables_of hook parts.old) (tables_of hook parts.new) }
    ensures masks { HasMasks parts.new.masks hook_shape (cells parts.new.ledger)
        (commits parts.new.ledger) }
    ensures rest { parts.new ≡ with_tables hook (tables_of hook parts.new) (record parts.old {
      ledger = parts.new.ledger;
      pools = parts.new.pools;
      masks = parts.new.masks;
      room = parts.new.room;
    }) }
{
    match hook {
        Hook::Ingress => open_on::<E>(
            &mut parts.ledger,
            &mut parts.pools,
            &mut parts.masks,
            &mut parts.ingress,
            &mut parts.room,
            store,
            hook,
            slot,
            mask,
            filter,
            given,
        ),
        Hook::Egress => open_on::<E>(
            &mut parts.ledger,
            &mut parts.pools,
            &mut parts.masks,
            &mut parts.egress,
            &mut parts.room,
            store,
            hook,
            slot,
            mask,
            filter,
            given,
        ),
    }
}

// The mask of a line, with one row.
fn mask_of(serial: u32, key: &Key<14>, rows: &[u32]) -> StoredMask
    requires one { length rows.now ≡ 1 }
    ensures serial { result.serial ≡ serial }
    ensures size { result.size ≡ 16 }
    ensures words { result.mask.words ≡ key.now.words }
    ensures count { length key.now.words ≡ 14 }
    ensures rows { result.rows ≡ rows.now }
{
    // Called for its second clause: a mask that is stored has fourteen words.
    let _words = words_of(key);
    StoredMask {
        serial,
        size: ROW_BUCKETS,
        mask: *key,
        rows: rows_of(rows),
    }
}

/// Puts the filter of a line into a mask of its own, which the edit makes, in a table that stands or is new.
/// The mask takes a slot, a row and two blocks: it is put there whole, where nobody reads it yet, and then
/// one commit, which carries the edit that `E` names, gives the hook its tables anew.
pub fn open_in_head<E: EditName<Edit>>(
    parts: &mut Parts,
    store: &HookStore,
    line: &FilterLine,
    done: &Done,
    room: Room,
)
    requires store { IsSeatOf store.now parts.old.ledger.writer.place }
    requires ahead { IsAhead parts.old E.edit done.now }
    requires add { IsAddOf (now (commits parts.old.ledger)) line.now E.edit }
    requires none { (pref : ℕ) × (handle : ℕ) × (serials : List ℕ)
        × (done.now ≡ dones.Filter pref handle serials)
        × (mask_row line.now.hook line.now.chain pref line.now.mask.words
        (now (commits parts.old.ledger)).rows ≡ None) }
    requires room { (room.blocks.items ≡ []) × (room.rows.items ≡ []) × (2 ≤ vec_capacity room.blocks)
        × (1 ≤ vec_capacity room.rows) }
    requires enough { (2 ≤ length parts.old.pools.blocks.free) × (1 ≤ length parts.old.pools.rows.free)
        × (1 ≤ length parts.old.pools.masks.free)
        × ((idle_of line.now.hook parts.old.pools).is_free ≡ true) }
    requires few { parts.old.ledger.point + 1 < 2 ^ 32 }
    ensures store { IsSeatOf store.now parts.new.ledger.writer.place }
    ensures desk { IsDesk parts.new }
    ensures point { parts.new.ledger.point ≡ parts.old.ledger.point + 1 }
    ensures journal { edits_of (commits parts.new.ledger)
        ≡ edits_of (commits parts.old.ledger) ++ E.edit ∷ [] }
    ensures aside { GoesOnAside (commits parts.old.ledger) (commits parts.new.ledger) }
    ensures lists { parts.new.ledger.lists ≡ parts.old.ledger.lists }
    ensures sheet { IsSameButCells (sheet_of parts.old.ledger.writer.place)
        (sheet_of parts.new.ledger.writer.place) }
    ensures blocks { IsCounted parts.old.pools.blocks parts.new.pools.blocks 2 0 }
    ensures rows { IsCounted parts.old.pools.rows parts.new.pools.rows 1 0 }
    ensures masks { IsCounted parts.old.pools.masks parts.new.pools.masks 1 0 }
    ensures others { parts.new.pools ≡ turned line.now.hook (record parts.old.pools {
      blocks = parts.new.pools.blocks;
      rows = parts.new.pools.rows;
      masks = parts.new.pools.masks;
    }) }
    ensures tables { (other : ThisHook) → line.now.hook ≢ other
        → tables_of other parts.new ≡ tables_of other parts.old }
    ensures rest { parts.new ≡ record parts.old {
      ledger = parts.new.ledger;
      pools = parts.new.pools;
      masks = parts.new.masks;
      ingress = parts.new.ingress;
      egress = parts.new.egress;
      room = parts.new.room;
    } }
{
    let serial = serial_of(&parts.ledger.lists, line, done);
    let filter = stored_filter(&parts.actions, line, done);
    let (slot, given) = take_for_mask(&mut parts.pools, 2, 1, room);
    let mask = mask_of(serial, &line.mask, given.rows.as_slice());
    open_at::<E>(parts, store, line.hook, slot, &mask, &filter, &given);
}
