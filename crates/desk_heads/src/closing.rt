//! Masks go.
ghost use Rattle.std.specs.Prelude.{◌≡◌, ◌≢◌, ◌<◌, ◌≤◌, ◌+◌, ◌^◌, ◌++◌, ◌∷◌, ℕ, List, [], length};
ghost use Rattle.tc_base.specs.declared.hook.Hook.{Hook as ThisHook};
ghost use Rattle.store_history.specs.History.{edits_of};
ghost use Rattle.pin_store.specs.Sheets.{base_of, IsSameButCells};
ghost use Rattle.pin_store.specs.Calls.{seen_by, sheet_of, IsSeatOf, IsUnnamed};
ghost use Rattle.store_history.specs.declared.places.TheConstants.{ROOTS};
ghost use Rattle.block_codec.specs.declared.places.TheConstants.{BLOCKS, BLOCK_WORDS, TABLES};
ghost use Rattle.hook_store_law.specs.OfEffects.Parts.{Stands};
ghost use Rattle.filter_lists.specs.Spells.{Spells};
ghost use Rattle.mask_writer.specs.Masks.{Masks};
ghost use Rattle.miniq_pair.specs.Pairs.{first_block_of, other_place, swap_commit};
ghost use Rattle.hook_law.specs.Meaning.{point_of};
ghost use Rattle.hook_law.specs.Standing.{IsMaskAt};
ghost use Rattle.hook_law.specs.Keeping.{IsAtRest};
ghost use Rattle.hook_store_law.specs.Stated.{hook_meaning};
ghost use Rattle.hook_store_law.specs.Blocks.{hook_codec};
ghost use Rattle.hook_store_law.specs.Kept.{KeepsHook};
ghost use Rattle.hook_store_law.specs.OfEdits.Premises.{next};
ghost use Rattle.desk_pools.specs.declared.pools.Pools.{Pools};
ghost use Rattle.desk_pools.specs.Pools.{ArePools};
ghost use Rattle.desk_pools.specs.Steps.{turned};
ghost use Rattle.desk_masks.specs.declared.hook_tables.HookTables.{HookTables};
ghost use Rattle.desk_masks.specs.Masks.{HasMasks};
ghost use Rattle.desk_masks.specs.Tables.{HasTables};
ghost use Rattle.desk_heads.specs.Closes.{ClosesMasks, HoldsMasks, IsGone};
ghost use Rattle.desk_heads.specs.Handed.{idle_of, AreActionsHanded};

use crate::giving::give_tables;
use desk_masks::HookTables;
use filter_lists::{Edit, Lists};
use hook_store_law::{HookLaw, HookStore};
use miniq_pair::StoredTables;
use pin_store::Writer;
use store_history::EditName;
use tc_base::{Hook, Point};

/// Makes the commit of an edit with which masks of a hook go, or a whole table: the hook gets its tables
/// anew. The writer of masks holds those that went until `forget_mask` is called for each. They are named by
/// the tables that the room has afterwards, which are the old ones. `lists` are those after the edit.
pub fn close_masks<E: EditName<Edit>>(
    heads: &mut HookTables,
    room: &mut StoredTables,
    writer: &mut Writer<HookLaw>,
    store: &HookStore,
    lists: &Lists,
    hook: Hook,
    point: Point,
)
    requires store { IsSeatOf store.now writer.old.place }
    requires shape { (store.now.shape.words ≡ BLOCK_WORDS) × (BLOCKS ≤ store.now.shape.blocks)
        × (ROOTS ≤ store.now.shape.roots) }
    requires point { (point ≡ point_of (seen_by writer.old.place)) × (point + 1 < 2 ^ 32) }
    requires lawful { KeepsHook (seen_by writer.old.place) (base_of (sheet_of writer.old.place)) }
    requires closes { ClosesMasks (seen_by writer.old.place) (base_of (sheet_of writer.old.place)) E.edit
        hook }
    requires lists { Spells lists.now (next (seen_by writer.old.place) E.edit) }
    requires tables { HasTables hook heads.old (seen_by writer.old.place) }
    requires idle { (at : ℕ) → at < TABLES
        → IsUnnamed (base_of (sheet_of writer.old.place)) (seen_by writer.old.place)
        (first_block_of hook (other_place heads.old.pair.active) + at) }
    ensures store { IsSeatOf store.now writer.new.place }
    ensures sheet { IsSameButCells (sheet_of writer.old.place) (sheet_of writer.new.place) }
    ensures seen { seen_by writer.new.place ≡ seen_by writer.old.place
        ++ swap_commit hook (other_place heads.old.pair.active) heads.new.tables (point + 1) E.edit ∷ [] }
    ensures journal { edits_of (seen_by writer.new.place)
        ≡ edits_of (seen_by writer.old.place) ++ E.edit ∷ [] }
    ensures lawful { KeepsHook (seen_by writer.new.place) (base_of (sheet_of writer.new.place)) }
    ensures rests { IsAtRest hook_meaning hook_codec (seen_by writer.new.place) }
    ensures tables { HasTables hook heads.new (seen_by writer.new.place) }
    ensures active { heads.new.pair.active ≡ other_place heads.old.pair.active }
    ensures room { room.new ≡ heads.old.tables }
    ensures others { (other : ThisHook) (kept : HookTables) → hook ≢ other
        → HasTables other kept (seen_by writer.old.place) → HasTables other kept (seen_by writer.new.place) }
    // the masks that stand afterwards are those of before that the edit leaves
    ensures stays { (mask slot : ℕ) → IsMaskAt hook_codec (seen_by writer.old.place) mask slot
        → Stands (next (seen_by writer.old.place) E.edit) mask
        → IsMaskAt hook_codec (seen_by writer.new.place) mask slot }
    ensures only { (mask slot : ℕ) → IsMaskAt hook_codec (seen_by writer.new.place) mask slot
        → IsMaskAt hook_codec (seen_by writer.old.place) mask slot
        × Stands (next (seen_by writer.old.place) E.edit) mask }
    ensures masks { (masks : Masks)
        → HasMasks masks store.now.shape (sheet_of writer.old.place).cells (seen_by writer.old.place)
        → HoldsMasks masks store.now.shape (sheet_of writer.new.place).cells (seen_by writer.new.place) }
    ensures gone { (masks : Masks) (mask slot : ℕ)
        → HasMasks masks store.now.shape (sheet_of writer.old.place).cells (seen_by writer.old.place)
        → IsMaskAt hook_codec (seen_by writer.old.place) mask slot
        → (Stands (next (seen_by writer.old.place) E.edit) mask → ⊥)
        → IsGone masks (seen_by writer.new.place) slot }
    ensures pools { (pools : Pools)
        → ArePools pools (seen_by writer.old.place) (base_of (sheet_of writer.old.place))
        → AreActionsHanded pools (seen_by writer.old.place) (base_of (sheet_of writer.old.place)) E.edit
        → (idle_of hook pools).place ≡ other_place heads.old.pair.active
        → ArePools (turned hook pools) (seen_by writer.new.place) (base_of (sheet_of writer.new.place)) }
{
    give_tables::<E>(heads, room, writer, store, lists, hook, &[], point + 1);
}
