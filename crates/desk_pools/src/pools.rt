//! What of each pool may be given, and what left.
ghost use Rattle.std.specs.Prelude.{◌≡◌, ◌≤◌};
ghost use Rattle.desk_pools.specs.Steps.{turned_place};

use crate::numbers::Pool;
use std::alloc::Global;
use store_history::places::{ACTION_SLOTS, MASK_SLOTS, POOL_BLOCKS, ROWS};
use tc_base::{Hook, NoMemory};

/// The place of a hook's tables that isn't active: 0 or 1, and whether it may be filled.
#[derive(Clone, Copy)]
pub struct IdlePlace {
    pub place: u32,
    pub is_free: bool,
}

// Each hook's tables begin at place 0.
const FIRST_IDLE: IdlePlace = IdlePlace {
    place: 1,
    is_free: true,
};

// The other place is idle, and not free.
fn turned(idle: IdlePlace) -> IdlePlace
    requires { idle.place ≤ 1 }
    ensures { result ≡ turned_place idle }
{
    IdlePlace {
        place: 1 - idle.place,
        is_free: false,
    }
}

/// The pools of a hook's store.
#[derive(Drop)]
pub struct Pools {
    pub blocks: Pool,
    pub rows: Pool,
    pub masks: Pool,
    pub actions: Pool,
    pub ingress: IdlePlace,
    pub egress: IdlePlace,
}

impl Pools {
    ghost use Rattle.std.specs.Prelude.{◌<◌, ◌+◌, ◌++◌, ◌∷◌, [], ℕ, List, length, vec_capacity};
    ghost use Rattle.std.specs.Prelude.{IfOk};
    ghost use Rattle.store_history.specs.declared.history.Commit.{Commit};
    ghost use Rattle.filter_state.specs.declared.edit.Edit.{Edit};
    ghost use Rattle.pin_store.specs.Calls.{IsUnnamed};
    ghost use Rattle.store_history.specs.declared.places.TheConstants.{POOL_BLOCKS, ACTION_SLOTS, ACTION_ROOTS};
    ghost use Rattle.store_history.specs.declared.places.TheConstants.{MASK_SLOTS, MASK_ROOTS, ROWS, BUCKET_ROOTS};
    ghost use Rattle.store_history.specs.declared.places.TheConstants.{ROW_BUCKETS};
    ghost use Rattle.root_pool_laws.specs.Blocks.{IsLeft};
    ghost use Rattle.desk_pools.specs.Pools.{gone_roots, IsFreeAt, IsLeftAt, ArePools, IsNothingLeft, AreAllFree};
    ghost use Rattle.desk_pools.specs.Steps.{IsInPool, IsTaken, AreTaken, MayLeave, turned};

    /// The pools of a new store, in which all is free: the active place of each hook is 0. It takes all the
    /// room that they ever need.
    ///
    /// `NoMemory`: memory was refused.
    pub fn new(alloc: Global) -> Result<Pools, NoMemory>
        ensures pools { IfOk result (λ p. ArePools p [] 0) }
        ensures none { IfOk result IsNothingLeft }
        ensures all { IfOk result AreAllFree }
        ensures places { IfOk result (λ p. (p.ingress.place ≡ 1) × (p.egress.place ≡ 1)) }
        ensures sizes { IfOk result (λ p. (p.blocks.size ≡ POOL_BLOCKS) × (p.rows.size ≡ ROWS)
            × (p.masks.size ≡ MASK_SLOTS) × (p.actions.size ≡ ACTION_SLOTS)) }
    {
        Ok(Pools {
            blocks: Pool::with_size(alloc, POOL_BLOCKS)?,
            rows: Pool::with_size(alloc, ROWS)?,
            masks: Pool::with_size(alloc, MASK_SLOTS)?,
            actions: Pool::with_size(alloc, ACTION_SLOTS)?,
            ingress: FIRST_IDLE,
            egress: FIRST_IDLE,
        })
    }

    /// Takes a free block.
    pub fn take_block(&mut self) -> u32
        requires { 0 < length self.old.blocks.free }
        ensures pools { (h : List (Commit Edit)) (b : ℕ) → ArePools self.old h b → ArePools self.new h b }
        ensures taken { (h : List (Commit Edit)) (b : ℕ) → ArePools self.old h b
            → IsTaken POOL_BLOCKS (IsUnnamed b h) self.new.blocks result }
        ensures free { self.old.blocks.free ≡ self.new.blocks.free ++ result ∷ [] }
        ensures left { self.new.blocks.left ≡ self.old.blocks.left }
        ensures room { length self.new.blocks.free + length self.new.blocks.left < self.new.blocks.size }
        ensures size { self.new.blocks.size ≡ self.old.blocks.size }
        ensures others { self.new ≡ record self.old { blocks = self.new.blocks } }
    {
        self.blocks.take()
    }

    /// A block leaves: only roots of what is gone name it.
    pub fn leave_block(&mut self, block: u32)
        requires room { length self.old.blocks.free + length self.old.blocks.left < self.old.blocks.size }
        ensures pools { (h : List (Commit Edit)) (b : ℕ) → ArePools self.old h b → block < POOL_BLOCKS
            → IsLeft (gone_roots self.old) h block → (IsInPool block self.old.blocks → ⊥)
            → ArePools self.new h b }
        ensures free { self.new.blocks.free ≡ self.old.blocks.free }
        ensures left { self.new.blocks.left ≡ self.old.blocks.left ++ block ∷ [] }
        ensures size { self.new.blocks.size ≡ self.old.blocks.size }
        ensures others { self.new ≡ record self.old { blocks = self.new.blocks } }
    {
        self.blocks.leave(block);
    }

    /// Takes a free slot of actions.
    pub fn take_action(&mut self) -> u32
        requires { 0 < length self.old.actions.free }
        ensures pools { (h : List (Commit Edit)) (b : ℕ) → ArePools self.old h b → ArePools self.new h b }
        ensures taken { (h : List (Commit Edit)) (b : ℕ) → ArePools self.old h b
            → IsTaken ACTION_SLOTS (IsFreeAt h b ACTION_ROOTS 1) self.new.actions result }
        ensures free { self.old.actions.free ≡ self.new.actions.free ++ result ∷ [] }
        ensures left { self.new.actions.left ≡ self.old.actions.left }
        ensures room { length self.new.actions.free + length self.new.actions.left < self.new.actions.size }
        ensures size { self.new.actions.size ≡ self.old.actions.size }
        ensures others { self.new ≡ record self.old { actions = self.new.actions } }
    {
        self.actions.take()
    }

    /// A slot of actions leaves: nothing stands at its root.
    pub fn leave_action(&mut self, slot: u32)
        requires room { length self.old.actions.free + length self.old.actions.left < self.old.actions.size }
        ensures pools { (h : List (Commit Edit)) (b : ℕ) → ArePools self.old h b → slot < ACTION_SLOTS
            → IsLeftAt h ACTION_ROOTS 1 slot → (IsInPool slot self.old.actions → ⊥)
            → ArePools self.new h b }
        ensures free { self.new.actions.free ≡ self.old.actions.free }
        ensures left { self.new.actions.left ≡ self.old.actions.left ++ slot ∷ [] }
        ensures size { self.new.actions.size ≡ self.old.actions.size }
        ensures others { self.new ≡ record self.old { actions = self.new.actions } }
    {
        self.actions.leave(slot);
    }

    /// Takes so many free blocks at once, into an empty list that has room for them.
    pub fn take_blocks(&mut self, count: u32, into: &mut Vec<u32>)
        requires enough { count ≤ length self.old.blocks.free }
        requires empty { into.old.items ≡ [] }
        requires capacity { count ≤ vec_capacity into.old }
        ensures pools { (h : List (Commit Edit)) (b : ℕ) → ArePools self.old h b → ArePools self.new h b }
        ensures taken { (h : List (Commit Edit)) (b : ℕ) → ArePools self.old h b
            → AreTaken POOL_BLOCKS (IsUnnamed b h) self.new.blocks into.new.items }
        ensures free { self.old.blocks.free ≡ self.new.blocks.free ++ into.new.items }
        ensures count { length into.new.items ≡ count }
        ensures left { self.new.blocks.left ≡ self.old.blocks.left }
        ensures size { self.new.blocks.size ≡ self.old.blocks.size }
        ensures others { self.new ≡ record self.old { blocks = self.new.blocks } }
    {
        self.blocks.take_some(count, into);
    }

    /// Blocks leave: only roots of what is gone name them.
    pub fn leave_blocks(&mut self, blocks: &[u32])
        requires room { length self.old.blocks.free + length self.old.blocks.left + length blocks.now
            ≤ self.old.blocks.size }
        ensures pools { (h : List (Commit Edit)) (b : ℕ) → ArePools self.old h b
            → MayLeave POOL_BLOCKS (IsLeft (gone_roots self.old) h) self.old.blocks blocks.now
            → ArePools self.new h b }
        ensures free { self.new.blocks.free ≡ self.old.blocks.free }
        ensures left { self.new.blocks.left ≡ self.old.blocks.left ++ blocks.now }
        ensures size { self.new.blocks.size ≡ self.old.blocks.size }
        ensures others { self.new ≡ record self.old { blocks = self.new.blocks } }
    {
        self.blocks.leave_some(blocks);
    }

    /// Takes so many free rows at once, into an empty list that has room for them.
    pub fn take_rows(&mut self, count: u32, into: &mut Vec<u32>)
        requires enough { count ≤ length self.old.rows.free }
        requires empty { into.old.items ≡ [] }
        requires capacity { count ≤ vec_capacity into.old }
        ensures pools { (h : List (Commit Edit)) (b : ℕ) → ArePools self.old h b → ArePools self.new h b }
        ensures taken { (h : List (Commit Edit)) (b : ℕ) → ArePools self.old h b
            → AreTaken ROWS (IsFreeAt h b BUCKET_ROOTS ROW_BUCKETS) self.new.rows into.new.items }
        ensures free { self.old.rows.free ≡ self.new.rows.free ++ into.new.items }
        ensures count { length into.new.items ≡ count }
        ensures left { self.new.rows.left ≡ self.old.rows.left }
        ensures size { self.new.rows.size ≡ self.old.rows.size }
        ensures others { self.new ≡ record self.old { rows = self.new.rows } }
    {
        self.rows.take_some(count, into);
    }

    /// Rows leave: nothing stands at the roots of their buckets.
    pub fn leave_rows(&mut self, rows: &[u32])
        requires room { length self.old.rows.free + length self.old.rows.left + length rows.now
            ≤ self.old.rows.size }
        ensures pools { (h : List (Commit Edit)) (b : ℕ) → ArePools self.old h b
            → MayLeave ROWS (IsLeftAt h BUCKET_ROOTS ROW_BUCKETS) self.old.rows rows.now
            → ArePools self.new h b }
        ensures free { self.new.rows.free ≡ self.old.rows.free }
        ensures left { self.new.rows.left ≡ self.old.rows.left ++ rows.now }
        ensures size { self.new.rows.size ≡ self.old.rows.size }
        ensures others { self.new ≡ record self.old { rows = self.new.rows } }
    {
        self.rows.leave_some(rows);
    }

    /// Takes a free slot of masks.
    pub fn take_mask(&mut self) -> u32
        requires { 0 < length self.old.masks.free }
        ensures pools { (h : List (Commit Edit)) (b : ℕ) → ArePools self.old h b → ArePools self.new h b }
        ensures taken { (h : List (Commit Edit)) (b : ℕ) → ArePools self.old h b
            → IsTaken MASK_SLOTS (IsFreeAt h b MASK_ROOTS 1) self.new.masks result }
        ensures free { self.old.masks.free ≡ self.new.masks.free ++ result ∷ [] }
        ensures left { self.new.masks.left ≡ self.old.masks.left }
        ensures room { length self.new.masks.free + length self.new.masks.left < self.new.masks.size }
        ensures size { self.new.masks.size ≡ self.old.masks.size }
        ensures others { self.new ≡ record self.old { masks = self.new.masks } }
    {
        self.masks.take()
    }

    /// A slot of masks leaves: nothing stands at its root.
    pub fn leave_mask(&mut self, slot: u32)
        requires room { length self.old.masks.free + length self.old.masks.left < self.old.masks.size }
        ensures pools { (h : List (Commit Edit)) (b : ℕ) → ArePools self.old h b → slot < MASK_SLOTS
            → IsLeftAt h MASK_ROOTS 1 slot → (IsInPool slot self.old.masks → ⊥)
            → ArePools self.new h b }
        ensures free { self.new.masks.free ≡ self.old.masks.free }
        ensures left { self.new.masks.left ≡ self.old.masks.left ++ slot ∷ [] }
        ensures size { self.new.masks.size ≡ self.old.masks.size }
        ensures others { self.new ≡ record self.old { masks = self.new.masks } }
    {
        self.masks.leave(slot);
    }

    /// The place of a hook's tables that was idle is active, and the other one is idle: it isn't free yet.
    pub fn turn(&mut self, hook: Hook)
        requires within { (self.old.ingress.place ≤ 1) × (self.old.egress.place ≤ 1) }
        ensures { self.new ≡ turned hook self.old }
    {
        match hook {
            Hook::Ingress => self.ingress = turned(self.ingress),
            Hook::Egress => self.egress = turned(self.egress),
        }
    }
}
