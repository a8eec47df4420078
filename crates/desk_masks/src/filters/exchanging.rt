//! A filter takes the place of another in a mask that stands.
ghost use Rattle.std.specs.Prelude.{◌≡◌, ◌⊎◌, ◌<◌, ◌+◌, ◌^◌, ◌∷◌, ◌++◌, ℕ, List, [], length};
ghost use Rattle.store_history.specs.History.{root_of, edits_of};
ghost use Rattle.pin_store.specs.Layout.{block_words};
ghost use Rattle.pin_store.specs.Sheets.{base_of, IsSameButCells};
ghost use Rattle.pin_store.specs.Calls.{seen_by, sheet_of, IsSeatOf};
ghost use Rattle.flow_mask.specs.Sizes.{size_of};
ghost use Rattle.block_codec.specs.Shapes.{HasPoolAndRoots};
ghost use Rattle.mask_table.specs.Buckets.{IsAmong};
ghost use Rattle.mask_table.specs.declared.mirrors.mirror.KeptMask.{KeptMask};
ghost use Rattle.mask_table.specs.OfMirrors.Given.{AreGiven};
ghost use Rattle.mask_table.specs.OfMirrors.Changing.{FilterAt, root_for, replace_at};
ghost use Rattle.mask_writer.specs.Standing.{masks_of, StandsAt};
ghost use Rattle.hook_law.specs.Meaning.{point_of};
ghost use Rattle.hook_law.specs.Standing.{Role, IsIn, Stands};
ghost use Rattle.hook_law.specs.Keeping.{IsAtRest, IsAtRestBut};
ghost use Rattle.hook_law.specs.Coming.{IsMade};
ghost use Rattle.hook_store_law.specs.Stated.{hook_meaning, filters_at};
ghost use Rattle.hook_store_law.specs.Blocks.{hook_codec};
ghost use Rattle.hook_store_law.specs.Kept.{KeepsHook};
ghost use Rattle.hook_store_law.specs.OfEdits.Premises.{now, next};
ghost use Rattle.root_pool_laws.specs.Blocks.{HaveOneRoot};
ghost use Rattle.desk_masks.specs.Masks.{HasMasks};
ghost use Rattle.desk_pools.specs.declared.pools.Pools.{Pools};
ghost use Rattle.desk_pools.specs.Pools.{ArePools};
ghost use Rattle.desk_pools.specs.Steps.{IsInPool};
ghost use Rattle.desk_masks.specs.OfFilterCommits.Edits.{ExchangesFilter, HasLater};
ghost use Rattle.desk_masks.specs.OfFilterCommits.Blocks.{AreTaken, AreOut};

use block_codec::StoredFilter;
use filter_state::Edit;
use hook_store_law::{HookLaw, HookStore};
use mask_writer::{Blocks, MaskWriter};
use pin_store::Writer;
use store_history::EditName;
use tc_base::Point;

/// Puts the filter of an accepted edit in the place of the one with its handle, mask and key, in the mask
/// that stands at a slot, by the one commit that carries the edit that `E` names, with the number after the
/// point. The later filters of its bucket go into the given blocks, one each, and the filter into the last
/// of them. Only actions that were put for the edit come to stand.
///
/// The blocks that leave are told by `MaskWriter::left_blocks`: those that these filters had, and the old
/// filter's own.
pub fn exchange_filter<E: EditName<Edit>>(
    masks: &mut MaskWriter,
    writer: &mut Writer<HookLaw>,
    store: &HookStore,
    slot: u32,
    filter: &StoredFilter,
    given: &Blocks,
    point: Point,
)
    requires store { IsSeatOf store.now writer.old.place }
    requires shape { HasPoolAndRoots store.now.shape.words store.now.shape.blocks store.now.shape.roots }
    requires point { (point ≡ point_of (seen_by writer.old.place)) × (point + 1 < 2 ^ 32) }
    requires lawful { KeepsHook (seen_by writer.old.place) (base_of (sheet_of writer.old.place)) }
    requires exchanges { ExchangesFilter (seen_by writer.old.place) (base_of (sheet_of writer.old.place))
        E.edit slot filter.now }
    requires masks { HasMasks masks.old store.now.shape (sheet_of writer.old.place).cells
        (seen_by writer.old.place) }
    requires given { AreGiven (base_of (sheet_of writer.old.place)) (seen_by writer.old.place)
        given.now.blocks }
    requires many { (kept : KeptMask) → StandsAt masks.old slot kept
        → (later : ℕ) × (length given.now.blocks ≡ later + 1)
        × HasLater kept.mask.size filter.now.handle
        (filters_at (now (seen_by writer.old.place)) kept.mask.serial) later }
    ensures store { IsSeatOf store.now writer.new.place }
    ensures seen { (kept : KeptMask) → StandsAt masks.old slot kept
        → (front : List StoredFilter) × (old : StoredFilter)
        × FilterAt (root_of (seen_by writer.old.place)) kept.mask filter.now.handle
        (root_for kept.mask filter.now) front old
        × (seen_by writer.new.place ≡ seen_by writer.old.place
        ++ replace_at (seen_by writer.old.place) (root_for kept.mask filter.now) given.now.blocks front
        filter.now (point + 1) E.edit ∷ []) }
    ensures journal { edits_of (seen_by writer.new.place)
        ≡ edits_of (seen_by writer.old.place) ++ E.edit ∷ [] }
    ensures sheet { IsSameButCells (sheet_of writer.old.place) (sheet_of writer.new.place) }
    ensures others { (other : ℕ) → (IsAmong other given.now.blocks → ⊥) → other < store.now.shape.blocks
        → block_words store.now.shape (sheet_of writer.new.place).cells other
        ≡ block_words store.now.shape (sheet_of writer.old.place).cells other }
    ensures lawful { KeepsHook (seen_by writer.new.place) (base_of (sheet_of writer.new.place)) }
    ensures masks { HasMasks masks.new store.now.shape (sheet_of writer.new.place).cells
        (seen_by writer.new.place) }
    ensures masks_same { masks_of masks.new ≡ masks_of masks.old }
    // the other masks have the sizes for their filters, and this one has where its size is still the one
    ensures rests_but { (kept : KeptMask) → StandsAt masks.old slot kept
        → IsAtRestBut hook_meaning hook_codec (seen_by writer.new.place) kept.mask.serial }
    ensures rests { (kept : KeptMask) → StandsAt masks.old slot kept
        → kept.mask.size
        ≡ size_of (length (filters_at (next (seen_by writer.old.place) E.edit) kept.mask.serial))
        → IsAtRest hook_meaning hook_codec (seen_by writer.new.place) }
    ensures comes { (r : ℕ) (role : Role)
        → Stands hook_meaning hook_codec (seen_by writer.new.place) r role
        → Stands hook_meaning hook_codec (seen_by writer.old.place) r role
        ⊎ IsMade hook_meaning hook_codec (base_of (sheet_of writer.old.place)) (seen_by writer.old.place)
        E.edit r role }
    ensures pools { (pools : Pools)
        → AreTaken pools (seen_by writer.old.place) (base_of (sheet_of writer.old.place)) E.edit
        given.now.blocks
        → ArePools pools (seen_by writer.new.place) (base_of (sheet_of writer.new.place)) }
    // no root names the blocks that leave, and no pool had them
    ensures left { HaveOneRoot (seen_by writer.old.place)
        → AreOut (seen_by writer.new.place) masks.new.left_blocks }
    ensures left_apart { (pools : Pools) (block : ℕ)
        → ArePools pools (seen_by writer.old.place) (base_of (sheet_of writer.old.place))
        → IsIn block masks.new.left_blocks → IsInPool block pools.blocks → ⊥ }
    ensures left_count { length masks.new.left_blocks ≡ length given.now.blocks }
    ensures left_rows { masks.new.left_rows ≡ [] }
{
    masks.replace::<HookLaw, E>(writer, store, slot, filter, given, point + 1);
}
