//! How many blocks an edit needs.
ghost use Rattle.std.specs.Prelude.{◌≡◌, ℕ, List};
ghost use Rattle.store_history.specs.declared.history.Commit.{Commit};
ghost use Rattle.pin_store.specs.declared.shape.Shape.{Shape};
ghost use Rattle.filter_state.specs.declared.edit.Edit.{Edit};
ghost use Rattle.mask_table.specs.declared.mirrors.mirror.KeptMask.{KeptMask};
ghost use Rattle.mask_writer.specs.Standing.{StandsAt};
ghost use Rattle.hook_store_law.specs.Stated.{filters_at};
ghost use Rattle.hook_store_law.specs.OfEdits.Premises.{now};
ghost use Rattle.desk_masks.specs.Masks.{HasMasks};
ghost use Rattle.desk_masks.specs.OfFilterCommits.Edits.{HasLater};

use mask_writer::MaskWriter;

/// How many later filters the bucket has of the one with a handle, which the mask at a slot has: so many
/// blocks a removal needs, and an exchange one more. No commit is made. With the hash of the filter's key
/// one bucket is searched, with any other hash it may be the whole mask.
pub fn later_in_bucket(masks: &mut MaskWriter, slot: u32, handle: u32, hash: u64) -> u32
    requires there { (shape : Shape) × (cells : List ℕ) × (h : List (Commit Edit)) × (kept : KeptMask)
        × (later : ℕ) × HasMasks masks.old shape cells h × StandsAt masks.old slot kept
        × HasLater kept.mask.size handle (filters_at (now h) kept.mask.serial) later }
    ensures count { (shape : Shape) (cells : List ℕ) (h : List (Commit Edit)) (kept : KeptMask)
        → HasMasks masks.old shape cells h → StandsAt masks.old slot kept
        → HasLater kept.mask.size handle (filters_at (now h) kept.mask.serial) result }
    ensures same { masks.new ≡ masks.old }
{
    masks.later_than(slot, handle, hash)
}
