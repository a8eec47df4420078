//! Room for the numbers that an edit takes out of the pools.
ghost use Rattle.std.specs.Prelude.{◌≡◌, ◌≤◌, ◌++◌, ℕ, List, [], length, vec_capacity};
ghost use Rattle.store_history.specs.declared.history.Commit.{Commit};
ghost use Rattle.pin_store.specs.Calls.{IsUnnamed};
ghost use Rattle.filter_state.specs.declared.edit.Edit.{Edit};
ghost use Rattle.store_history.specs.declared.places.TheConstants.{POOL_BLOCKS, ROWS, ROW_BUCKETS};
ghost use Rattle.store_history.specs.declared.places.TheConstants.{BUCKET_ROOTS};
ghost use Rattle.desk_pools.specs.Pools.{IsFreeAt, ArePools};
ghost use Rattle.desk_pools.specs.Steps.{AreTaken};
ghost use Rattle.desk_actions.specs.Effects.{IsCounted};

use desk_pools::Pools;
use mask_writer::Blocks;
use tc_base::Numbers;

/// Two empty lists, with room for the blocks and for the rows that an edit takes. Memory may be refused only
/// before an edit is begun, so whoever begins one makes them.
#[derive(Drop)]
pub struct Room {
    pub blocks: Vec<u32>,
    pub rows: Vec<u32>,
}

// Takes so many free blocks out of the pools, and no row.
pub fn taken_blocks(pools: &mut Pools, count: u32, room: Room) -> Blocks
    requires empty { (room.blocks.items ≡ []) × (room.rows.items ≡ []) }
    requires capacity { count ≤ vec_capacity room.blocks }
    requires enough { count ≤ length pools.old.blocks.free }
    ensures pools { (h : List (Commit Edit)) (b : ℕ) → ArePools pools.old h b → ArePools pools.new h b }
    ensures taken { (h : List (Commit Edit)) (b : ℕ) → ArePools pools.old h b
        → AreTaken POOL_BLOCKS (IsUnnamed b h) pools.new.blocks result.blocks }
    ensures count { length result.blocks ≡ count }
    ensures no_rows { result.rows ≡ [] }
    ensures counted { IsCounted pools.old.blocks pools.new.blocks count 0 }
    ensures others { pools.new ≡ record pools.old { blocks = pools.new.blocks } }
{
    let Room { mut blocks, rows } = room;
    pools.take_blocks(count, &mut blocks);
    Blocks {
        blocks: Numbers::from_vec(blocks),
        rows: Numbers::from_vec(rows),
    }
}

// Takes so many free blocks and rows out of the pools.
pub fn taken_numbers(pools: &mut Pools, block_count: u32, row_count: u32, room: Room) -> Blocks
    requires empty { (room.blocks.items ≡ []) × (room.rows.items ≡ []) }
    requires capacity { (block_count ≤ vec_capacity room.blocks) × (row_count ≤ vec_capacity room.rows) }
    requires enough { (block_count ≤ length pools.old.blocks.free)
        × (row_count ≤ length pools.old.rows.free) }
    ensures pools { (h : List (Commit Edit)) (b : ℕ) → ArePools pools.old h b → ArePools pools.new h b }
    ensures blocks { (h : List (Commit Edit)) (b : ℕ) → ArePools pools.old h b
        → AreTaken POOL_BLOCKS (IsUnnamed b h) pools.new.blocks result.blocks }
    ensures rows { (h : List (Commit Edit)) (b : ℕ) → ArePools pools.old h b
        → AreTaken ROWS (IsFreeAt h b BUCKET_ROOTS ROW_BUCKETS) pools.new.rows result.rows }
    ensures rows_were { pools.old.rows.free ≡ pools.new.rows.free ++ result.rows }
    ensures counts { (length result.blocks ≡ block_count) × (length result.rows ≡ row_count) }
    ensures block_counted { IsCounted pools.old.blocks pools.new.blocks block_count 0 }
    ensures row_counted { IsCounted pools.old.rows pools.new.rows row_count 0 }
    ensures others { pools.new
        ≡ record pools.old { blocks = pools.new.blocks; rows = pools.new.rows } }
{
    let Room {
        mut blocks,
        mut rows,
    } = room;
    pools.take_blocks(block_count, &mut blocks);
    pools.take_rows(row_count, &mut rows);
    Blocks {
        blocks: Numbers::from_vec(blocks),
        rows: Numbers::from_vec(rows),
    }
}
