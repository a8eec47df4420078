//! A mask comes, with a filter.
ghost use Rattle.std.specs.Prelude.{◌≡◌, ◌≢◌, ◌<◌, ◌≤◌, ◌+◌, ◌^◌, ◌++◌, ◌∷◌, ℕ, List, [], length};
ghost use Rattle.std.specs.Prelude.{slice_index};
ghost use Rattle.tc_base.specs.declared.hook.Hook.{Hook as ThisHook};
ghost use Rattle.store_history.specs.History.{edits_of};
ghost use Rattle.pin_store.specs.Sheets.{base_of, IsSameButCells};
ghost use Rattle.pin_store.specs.Calls.{seen_by, sheet_of, IsSeatOf, IsUnnamed};
ghost use Rattle.store_history.specs.declared.places.TheConstants.{ROOTS};
ghost use Rattle.block_codec.specs.declared.places.TheConstants.{BLOCKS, BLOCK_WORDS, TABLES};
ghost use Rattle.filter_lists.specs.Spells.{Spells};
ghost use Rattle.mask_table.specs.OfMirrors.Given.{AreGiven};
ghost use Rattle.mask_table.specs.OfMirrors.Linked.{placed, raise_commits};
ghost use Rattle.miniq_pair.specs.Pairs.{first_block_of, other_place, swap_commit};
ghost use Rattle.hook_law.specs.Meaning.{point_of};
ghost use Rattle.hook_law.specs.Keeping.{IsAtRest};
ghost use Rattle.hook_store_law.specs.Stated.{hook_meaning};
ghost use Rattle.hook_store_law.specs.Blocks.{hook_codec};
ghost use Rattle.hook_store_law.specs.Kept.{KeepsHook};
ghost use Rattle.hook_store_law.specs.OfEdits.Premises.{next};
ghost use Rattle.desk_pools.specs.declared.pools.Pools.{Pools};
ghost use Rattle.desk_pools.specs.Pools.{ArePools};
ghost use Rattle.desk_pools.specs.Steps.{turned};
ghost use Rattle.desk_masks.specs.declared.hook_tables.HookTables.{HookTables};
ghost use Rattle.desk_masks.specs.Masks.{HasMasks};
ghost use Rattle.desk_masks.specs.Tables.{HasTables};
ghost use Rattle.desk_heads.specs.Opens.{OpensMask};
ghost use Rattle.desk_heads.specs.Handed.{idle_of, AreHanded, AreActionsHanded};

use crate::giving::give_tables;
use block_codec::{StoredFilter, StoredMask};
use desk_masks::HookTables;
use filter_lists::{Edit, Lists};
use hook_store_law::{HookLaw, HookStore};
use mask_writer::{Blocks, MaskWriter};
use miniq_pair::StoredTables;
use pin_store::Writer;
use std::slice;
use store_history::EditName;
use tc_base::{Hook, Point};
use visit_room::MaskName;

/// Makes the commits of an edit that puts a filter into a mask of its own: the mask is put whole into the
/// given blocks, its own rows and the slot, which nobody reads, and then the hook gets its tables anew, by
/// the one commit that carries the edit. `lists` are those after the edit.
pub fn open_mask<E: EditName<Edit>>(
    masks: &mut MaskWriter,
    heads: &mut HookTables,
    room: &mut StoredTables,
    writer: &mut Writer<HookLaw>,
    store: &HookStore,
    lists: &Lists,
    hook: Hook,
    slot: u32,
    mask: &StoredMask,
    filter: &StoredFilter,
    given: &Blocks,
    point: Point,
)
    requires store { IsSeatOf store.now writer.old.place }
    requires shape { (store.now.shape.words ≡ BLOCK_WORDS) × (BLOCKS ≤ store.now.shape.blocks)
        × (ROOTS ≤ store.now.shape.roots) }
    requires point { (point ≡ point_of (seen_by writer.old.place)) × (point + 1 < 2 ^ 32) }
    requires lawful { KeepsHook (seen_by writer.old.place) (base_of (sheet_of writer.old.place)) }
    requires opens { OpensMask (seen_by writer.old.place) (base_of (sheet_of writer.old.place)) E.edit hook
        slot mask.now filter.now given.now.blocks }
    requires lists { Spells lists.now (next (seen_by writer.old.place) E.edit) }
    requires masks { HasMasks masks.old store.now.shape (sheet_of writer.old.place).cells
        (seen_by writer.old.place) }
    requires tables { HasTables hook heads.old (seen_by writer.old.place) }
    requires idle { (at : ℕ) → at < TABLES
        → IsUnnamed (base_of (sheet_of writer.old.place)) (seen_by writer.old.place)
        (first_block_of hook (other_place heads.old.pair.active) + at) }
    requires given { (length given.now.blocks ≡ 2)
        × AreGiven (base_of (sheet_of writer.old.place)) (seen_by writer.old.place) given.now.blocks }
    ensures store { IsSeatOf store.now writer.new.place }
    ensures sheet { IsSameButCells (sheet_of writer.old.place) (sheet_of writer.new.place) }
    ensures seen { seen_by writer.new.place ≡ (seen_by writer.old.place
        ++ raise_commits slot mask.now (slice_index given.now.blocks 1)
        (placed given.now.blocks (filter.now ∷ [])) (point + 1))
        ++ swap_commit hook (other_place heads.old.pair.active) heads.new.tables (point + 1) E.edit ∷ [] }
    ensures journal { edits_of (seen_by writer.new.place)
        ≡ edits_of (seen_by writer.old.place) ++ E.edit ∷ [] }
    ensures lawful { KeepsHook (seen_by writer.new.place) (base_of (sheet_of writer.new.place)) }
    ensures rests { IsAtRest hook_meaning hook_codec (seen_by writer.new.place) }
    ensures masks { HasMasks masks.new store.now.shape (sheet_of writer.new.place).cells
        (seen_by writer.new.place) }
    ensures tables { HasTables hook heads.new (seen_by writer.new.place) }
    ensures active { heads.new.pair.active ≡ other_place heads.old.pair.active }
    ensures others { (other : ThisHook) (kept : HookTables) → hook ≢ other
        → HasTables other kept (seen_by writer.old.place) → HasTables other kept (seen_by writer.new.place) }
    ensures pools { (pools : Pools)
        → ArePools pools (seen_by writer.old.place) (base_of (sheet_of writer.old.place))
        → AreHanded pools given.now.blocks mask.now.rows slot
        → AreActionsHanded pools (seen_by writer.old.place) (base_of (sheet_of writer.old.place)) E.edit
        → (idle_of hook pools).place ≡ other_place heads.old.pair.active
        → ArePools (turned hook pools) (seen_by writer.new.place) (base_of (sheet_of writer.new.place)) }
{
    let number = point + 1;
    masks.create::<HookLaw, E>(writer, store, slot, mask, filter, given, number);
    let built = MaskName {
        serial: mask.serial,
        slot,
    };
    give_tables::<E>(
        heads,
        room,
        writer,
        store,
        lists,
        hook,
        slice::from_ref(&built),
        number,
    );
}
