//! What a commit leaves of the pools.
ghost use Rattle.std.specs.Prelude.{◌≤◌, ◌+◌, ℕ, List, [], ◌∷◌, ◌++◌, length};
ghost use Rattle.store_history.specs.declared.places.TheConstants.{POOL_BLOCKS, ROWS, ROW_BUCKETS, BUCKET_ROOTS};
ghost use Rattle.store_history.specs.declared.places.TheConstants.{MASK_SLOTS, MASK_ROOTS, ACTION_SLOTS};
ghost use Rattle.store_history.specs.declared.places.TheConstants.{ACTION_ROOTS};
ghost use Rattle.root_pool_laws.specs.Blocks.{IsLeft};
ghost use Rattle.store_history.specs.declared.history.Commit.{Commit};
ghost use Rattle.filter_state.specs.declared.edit.Edit.{Edit};
ghost use Rattle.desk_pools.specs.declared.pools.Pools.{Pools};
ghost use Rattle.desk_pools.specs.Pools.{gone_roots, IsLeftAt, ArePools};
ghost use Rattle.desk_pools.specs.Steps.{LeavesPools, MayLeave};

/// With a commit that spends blocks that were taken, and with which nothing comes to stand at a root of what
/// is in the pools, the pools stay as right as they are.
pub fn pools_of_a_commit()
    ensures { (pools : Pools) (h : List (Commit Edit)) (b : ℕ) (c : Commit Edit) (given : List ℕ)
        → b ≤ length h → ArePools pools h b → LeavesPools pools h b c given → ArePools pools (h ++ c ∷ []) b }
{}

/// A pool has room for numbers that may leave.
pub fn pools_have_room()
    ensures blocks { (pools : Pools) (h : List (Commit Edit)) (b : ℕ) (leaving : List ℕ) → ArePools pools h b
        → MayLeave POOL_BLOCKS (IsLeft (gone_roots pools) h) pools.blocks leaving
        → length pools.blocks.free + length pools.blocks.left + length leaving ≤ POOL_BLOCKS }
    ensures rows { (pools : Pools) (h : List (Commit Edit)) (b : ℕ) (leaving : List ℕ) → ArePools pools h b
        → MayLeave ROWS (IsLeftAt h BUCKET_ROOTS ROW_BUCKETS) pools.rows leaving
        → length pools.rows.free + length pools.rows.left + length leaving ≤ ROWS }
    ensures masks { (pools : Pools) (h : List (Commit Edit)) (b : ℕ) (leaving : List ℕ) → ArePools pools h b
        → MayLeave MASK_SLOTS (IsLeftAt h MASK_ROOTS 1) pools.masks leaving
        → length pools.masks.free + length pools.masks.left + length leaving ≤ MASK_SLOTS }
    ensures actions { (pools : Pools) (h : List (Commit Edit)) (b : ℕ) (leaving : List ℕ)
        → ArePools pools h b → MayLeave ACTION_SLOTS (IsLeftAt h ACTION_ROOTS 1) pools.actions leaving
        → length pools.actions.free + length pools.actions.left + length leaving ≤ ACTION_SLOTS }
{}
