//! What a mask takes out of the pools.
ghost use Rattle.std.specs.Prelude.{◌≡◌, ◌≤◌, ◌<◌, ◌++◌, ◌∷◌, ℕ, List, [], length, vec_capacity};
ghost use Rattle.store_history.specs.declared.history.Commit.{Commit};
ghost use Rattle.filter_state.specs.declared.edit.Edit.{Edit};
ghost use Rattle.desk_pools.specs.Pools.{ArePools};
ghost use Rattle.desk_actions.specs.Effects.{IsCounted};
ghost use Rattle.shared_hook.specs.OfDeskEdits.Taken.{IsMaskRoom};

use crate::desk_edits::room::Room;
use desk_pools::Pools;
use mask_writer::Blocks;
use tc_base::Numbers;

/// Takes a slot, and so many blocks and rows.
pub fn take_for_mask(
    pools: &mut Pools,
    block_count: u32,
    row_count: u32,
    room: Room,
) -> (u32, Blocks)
    requires enough { (block_count ≤ length pools.old.blocks.free) × (row_count ≤ length pools.old.rows.free)
        × (0 < length pools.old.masks.free) }
    requires empty { (room.blocks.items ≡ []) × (room.rows.items ≡ []) }
    requires capacity { (block_count ≤ vec_capacity room.blocks) × (row_count ≤ vec_capacity room.rows) }
    ensures pools { (h : List (Commit Edit)) (b : ℕ) → ArePools pools.old h b → ArePools pools.new h b }
    ensures taken { (h : List (Commit Edit)) (b : ℕ) → ArePools pools.old h b
        → IsMaskRoom pools.new h b result.0 result.1.blocks result.1.rows }
    // what was free was taken, and what left stays
    ensures free { (pools.old.masks.free ≡ pools.new.masks.free ++ result.0 ∷ [])
        × (pools.old.rows.free ≡ pools.new.rows.free ++ result.1.rows) }
    ensures left { (pools.new.masks.left ≡ pools.old.masks.left)
        × (pools.new.rows.left ≡ pools.old.rows.left) }
    ensures many { (length result.1.blocks ≡ block_count) × (length result.1.rows ≡ row_count) }
    ensures blocks { IsCounted pools.old.blocks pools.new.blocks block_count 0 }
    ensures rows { IsCounted pools.old.rows pools.new.rows row_count 0 }
    ensures masks { IsCounted pools.old.masks pools.new.masks 1 0 }
    ensures others { pools.new ≡ record pools.old {
      blocks = pools.new.blocks;
      rows = pools.new.rows;
      masks = pools.new.masks;
    } }
{
    let Room {
        mut blocks,
        mut rows,
    } = room;
    let slot = pools.take_mask();
    pools.take_blocks(block_count, &mut blocks);
    pools.take_rows(row_count, &mut rows);
    let given = Blocks {
        blocks: Numbers::from_vec(blocks),
        rows: Numbers::from_vec(rows),
    };
    (slot, given)
}
