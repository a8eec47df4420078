//! What a writer of masks keeps of what it committed.
ghost use Rattle.store_history.specs.declared.places.TheConstants.{BUCKETS, MASK_SLOTS, POOL_BLOCKS};
ghost use Rattle.std.specs.Prelude.{◌≡◌, ℕ, length, slice_index_or, None, IfOk};

use block_codec::{StoredFilter, StoredMask};
use std::alloc::Global;
use store_history::places::{MASK_SLOTS, POOL_BLOCKS, ROW_BUCKETS, ROWS};
use tc_base::NoMemory;

/// A mask that stands, with the block of its record.
#[derive(Drop)]
pub struct KeptMask {
    pub block: u32,
    pub mask: StoredMask,
}

/// The masks and chains that a writer committed.
#[derive(Drop)]
pub struct Mirror {
    /// By slot the mask that stands there.
    pub slots: Vec<Option<KeptMask>>,
    /// By bucket of all rows the first block's number plus 1, or 0.
    pub first: Vec<u32>,
    /// By block of the pool the next block's number plus 1, or 0.
    pub next: Vec<u32>,
    /// By block of the pool the filter that it has.
    pub filters: Vec<Option<StoredFilter>>,
    /// By block of the pool the age of its filter, which rises in the order of a mask's filters.
    pub ages: Vec<u64>,
    pub ghost slots_long: { length slots.items ≡ MASK_SLOTS },
    pub ghost first_long: { length first.items ≡ BUCKETS },
    pub ghost next_long: { length next.items ≡ POOL_BLOCKS },
    pub ghost filters_long: { length filters.items ≡ POOL_BLOCKS },
    pub ghost ages_long: { length ages.items ≡ POOL_BLOCKS },
}

// So many places without anything.
fn empty_places<T: Drop>(alloc: Global, count: usize) -> Result<Vec<Option<T>>, NoMemory>
    ensures long { IfOk result (λ places. length places.items ≡ count) }
    ensures empty { IfOk result (λ places. (place : ℕ) → slice_index_or places.items place None ≡ None) }
{
    let mut places = Vec::with_capacity(alloc, count)?;
    for _ in 0..count {
        places.push(None)?;
    }
    Ok(places)
}

impl Mirror {
    ghost use Rattle.store_history.specs.declared.places.TheConstants.{BUCKETS, MASK_SLOTS, POOL_BLOCKS};
    ghost use Rattle.std.specs.Prelude.{◌<◌, slice_set, Some};

    /// The mirror of a store without masks. No other call takes memory.
    pub fn with_room(alloc: Global) -> Result<Mirror, NoMemory>
        ensures { IfOk result (λ mirror. (slot : ℕ) → slice_index_or mirror.slots.items slot None ≡ None) }
    {
        Ok(Mirror {
            slots: empty_places(alloc, MASK_SLOTS as usize)?,
            first: vec![in alloc; 0u32; (ROWS * ROW_BUCKETS) as usize]?,
            next: vec![in alloc; 0u32; POOL_BLOCKS as usize]?,
            filters: empty_places(alloc, POOL_BLOCKS as usize)?,
            ages: vec![in alloc; 0u64; POOL_BLOCKS as usize]?,
        })
    }

    /// Keeps a filter and its age in a block, which is linked to a chain that begins with the number.
    pub fn keep(&mut self, block: u32, filter: StoredFilter, age: u64, number: u32)
        requires { block < POOL_BLOCKS }
        ensures slots { self.new.slots.items ≡ self.old.slots.items }
        ensures first { self.new.first.items ≡ self.old.first.items }
        ensures next { self.new.next.items ≡ slice_set self.old.next.items block number }
        ensures filters { self.new.filters.items ≡ slice_set self.old.filters.items block (Some filter) }
        ensures ages { self.new.ages.items ≡ slice_set self.old.ages.items block age }
    {
        self.next[block as usize] = number;
        self.filters[block as usize] = Some(filter);
        self.ages[block as usize] = age;
    }

    /// Keeps that the chain of the bucket at a place begins with the number.
    pub fn begin(&mut self, place: u32, number: u32)
        requires { place < BUCKETS }
        ensures slots { self.new.slots.items ≡ self.old.slots.items }
        ensures first { self.new.first.items ≡ slice_set self.old.first.items place number }
        ensures next { self.new.next.items ≡ self.old.next.items }
        ensures filters { self.new.filters.items ≡ self.old.filters.items }
        ensures ages { self.new.ages.items ≡ self.old.ages.items }
    {
        self.first[place as usize] = number;
    }

    /// Keeps a mask at a slot, or none.
    pub fn place(&mut self, slot: u32, mask: Option<KeptMask>)
        requires { slot < MASK_SLOTS }
        ensures slots { self.new.slots.items ≡ slice_set self.old.slots.items slot mask }
        ensures first { self.new.first.items ≡ self.old.first.items }
        ensures next { self.new.next.items ≡ self.old.next.items }
        ensures filters { self.new.filters.items ≡ self.old.filters.items }
        ensures ages { self.new.ages.items ≡ self.old.ages.items }
    {
        self.slots[slot as usize] = mask;
    }
}
