//! Roots of what left, emptied.
ghost use Rattle.std.specs.Prelude.{◌≡◌, ◌<◌, ◌≤◌, ◌+◌, ◌*◌, ◌++◌, ℕ, List, length, slice_get, Some};
ghost use Rattle.std.specs.List.{range_with_len};
ghost use Rattle.pin_store.specs.Sheets.{base_of};
ghost use Rattle.pin_store.specs.Calls.{seen_by, sheet_of, IsSeatOf};
ghost use Rattle.hook_law.specs.Standing.{IsUnused};
ghost use Rattle.hook_store_law.specs.Kept.{IsKeptAt};
ghost use Rattle.hook_store_law.specs.Stated.{hook_meaning};
ghost use Rattle.hook_store_law.specs.Blocks.{hook_codec};
ghost use Rattle.desk_pools.specs.Pools.{roots_of, IsFreeAt};
ghost use Rattle.desk_pools.specs.OfTidying.Tidied.{emptying};

use filter_state::Edit;
use hook_store_law::HookLaw;
use pin_store::{Store, Writer};
use store_history::EditName;
use tc_base::Point;

/// Names no edit in particular, for commits without a number. Nothing is made of this type.
pub(crate) struct NoEdit;

impl EditName<Edit> for NoEdit {
    ghost use Rattle.filter_state.specs.declared.edit.Edit.TheVariants as edits;

    ghost edit = { edits.HookAdd };
}

// Empties so many roots, one after the other.
pub(crate) fn empty_range(
    writer: &mut Writer<HookLaw>,
    store: &Store<HookLaw>,
    first: u32,
    count: u32,
    point: Point,
)
    requires store { IsSeatOf store.now writer.old.place }
    requires within { first + count ≤ store.now.shape.roots }
    requires lawful { IsKeptAt (seen_by writer.old.place) (base_of (sheet_of writer.old.place)) point }
    requires unused { (root : ℕ) → first ≤ root → root < first + count
        → IsUnused hook_meaning hook_codec (base_of (sheet_of writer.old.place)) (seen_by writer.old.place)
        root }
    ensures store { IsSeatOf store.now writer.new.place }
    ensures seen { seen_by writer.new.place
        ≡ seen_by writer.old.place ++ emptying point (range_with_len first count) }
    ensures sheet { sheet_of writer.new.place ≡ sheet_of writer.old.place }
{
    for k in 0..count {
        writer.commit::<NoEdit>(store, first + k, &[], point, None);
    }
}

// Empties the roots of some numbers, so many each.
pub(crate) fn empty_each(
    writer: &mut Writer<HookLaw>,
    store: &Store<HookLaw>,
    numbers: &[u32],
    first: u32,
    width: u32,
    point: Point,
)
    requires store { IsSeatOf store.now writer.old.place }
    requires within { (place number : ℕ) → slice_get numbers.now place ≡ Some number
        → first + width * number + width ≤ store.now.shape.roots }
    requires small { store.now.shape.roots < 4294967296 }
    requires lawful { IsKeptAt (seen_by writer.old.place) (base_of (sheet_of writer.old.place)) point }
    requires unused { (place number : ℕ) → slice_get numbers.now place ≡ Some number
        → IsFreeAt (seen_by writer.old.place) (base_of (sheet_of writer.old.place)) first width number }
    ensures store { IsSeatOf store.now writer.new.place }
    ensures seen { seen_by writer.new.place
        ≡ seen_by writer.old.place ++ emptying point (roots_of first width numbers.now) }
    ensures sheet { sheet_of writer.new.place ≡ sheet_of writer.old.place }
{
    for at in 0..numbers.len() {
        empty_range(writer, store, first + width * numbers[at], width, point);
    }
}
