//! The blocks of a chain, followed along the numbers that are kept.
ghost use Rattle.store_history.specs.declared.places.TheConstants.{MASK_SLOTS, POOL_BLOCKS};
ghost use Rattle.std.specs.Prelude.{◌≡◌, ℕ, ◌+◌, ◌<◌, ◌≤◌, ◌++◌, ◌∷◌, [], List, length};
ghost use Rattle.store_history.specs.declared.history.Named.{Named};
ghost use Rattle.pin_store.specs.declared.shape.Shape.{Shape};
ghost use Rattle.pin_store.specs.Layout.{block_in};
ghost use Rattle.mask_table.specs.declared.mirrors.mirror.KeptMask.{KeptMask};
ghost use Rattle.mask_table.specs.OfMirrors.Kept.{Stands, Spells, IsKept};
ghost use Rattle.mask_table.specs.OfMirrors.Forgetting.{bucket_blocks};

use crate::mirrors::buckets::place_of;
use crate::mirrors::mirror::{KeptMask, Mirror};
use crate::mirrors::number_room::NumberRoom;

// The block that a number links to: the number is the block's plus 1, or 0 where there is none.
pub(crate) fn block_in(number: u32) -> Option<u32>
    ensures { result ≡ block_in number }
{
    if number == 0 { None } else { Some(number - 1) }
}

/// Puts the blocks that are followed from a number on behind those that are there.
pub fn gather(chain: &mut NumberRoom, next: &[u32], start: u32)
    requires long { length next.now ≡ POOL_BLOCKS }
    requires spelled { (blocks : List ℕ) × Spells next.now start blocks }
    requires few { (blocks : List ℕ) → Spells next.now start blocks
        → length chain.old + length blocks ≤ POOL_BLOCKS + 1 }
    ensures { (blocks : List ℕ) → Spells next.now start blocks → chain.new ≡ chain.old ++ blocks }
{
    let mut number = start;
    while number != 0 {
        let block = number - 1;
        chain.push(block);
        number = next[block as usize];
    }
}

// Puts the blocks of all buckets of a mask that stands behind the one block that is there.
fn gather_buckets(left: &mut NumberRoom, mirror: &Mirror, kept: &KeptMask)
    requires one { length left.old ≡ 1 }
    requires kept { (slot : ℕ) × (shape : Shape) × (cells : List ℕ) × (roots : ℕ → Named)
        × Stands mirror.now slot kept.now × IsKept mirror.now shape cells roots }
    ensures { (slot : ℕ) (shape : Shape) (cells : List ℕ) (roots : ℕ → Named)
        → Stands mirror.now slot kept.now → IsKept mirror.now shape cells roots
        → left.new ≡ left.old ++ bucket_blocks roots kept.now.mask kept.now.mask.size }
{
    for bucket in 0..kept.mask.size {
        let place = place_of(&kept.mask, bucket);
        gather(left, &mirror.next, mirror.first[place as usize]);
    }
}

/// Puts all blocks and rows of the mask at a slot into the lists.
pub fn gather_mask(left: &mut NumberRoom, rows: &mut NumberRoom, mirror: &Mirror, slot: u32)
    requires empty { (left.old ≡ []) × (rows.old ≡ []) }
    requires slot { slot < MASK_SLOTS }
    requires stands { (kept : KeptMask) × Stands mirror.now slot kept }
    requires kept { (shape : Shape) × (cells : List ℕ) × (roots : ℕ → Named)
        × IsKept mirror.now shape cells roots }
    ensures blocks { (kept : KeptMask) (shape : Shape) (cells : List ℕ) (roots : ℕ → Named)
        → Stands mirror.now slot kept → IsKept mirror.now shape cells roots
        → left.new ≡ kept.block ∷ bucket_blocks roots kept.mask kept.mask.size }
    ensures rows { (kept : KeptMask) → Stands mirror.now slot kept → rows.new ≡ kept.mask.rows }
{
    match &mirror.slots[slot as usize] {
        Some(kept) => {
            left.push(kept.block);
            gather_buckets(left, mirror, kept);
            rows.push_all(kept.mask.rows.items());
        }
        None => unreachable!(),
    }
}
