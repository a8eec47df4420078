//! Where live actions stand.

use act_registry::MADE_MAX;
use std::alloc::Global;
use std::marker::Model;
use store_history::places::{ACTION_SLOTS, POOL_BLOCKS};
use tc_base::NoMemory;

/// By its serial the slot of an action, and by the slot the block of its record.
#[derive(Drop)]
pub struct ActionPlaces {
    slots: Vec<u32>,
    blocks: Vec<u32>,
}

impl Model for ActionPlaces {
    ghost use Rattle.std.specs.Prelude.{◌≡◌, ◌<◌, ◌+◌, ℕ, length, slice_index};
    ghost use Rattle.act_registry.specs.declared.limits.TheConstants.{MADE_MAX};
    ghost use Rattle.store_history.specs.declared.places.TheConstants.{ACTION_SLOTS};
    ghost use Rattle.desk_actions.specs.Places.{Placed};

    ghost Value = { Placed };

    ghost view = { λ p. record { slots = p.slots.items; blocks = p.blocks.items } };

    ghost invariant = { λ p. (length p.slots.items ≡ MADE_MAX + 1) × (length p.blocks.items ≡ ACTION_SLOTS)
        × ((action : ℕ) → slice_index p.slots.items action < ACTION_SLOTS) };
}

impl ActionPlaces {
    ghost use Rattle.std.specs.Prelude.{◌≡◌, ◌<◌, ◌≤◌, [], IfOk};
    ghost use Rattle.act_registry.specs.declared.limits.TheConstants.{MADE_MAX};
    ghost use Rattle.store_history.specs.declared.places.TheConstants.{ACTION_SLOTS};
    ghost use Rattle.desk_actions.specs.Places.{slot_of, block_of, put_at, cleared_at, AreHere};

    /// Places for all actions that are ever made. None is there yet.
    ///
    /// `NoMemory`: memory was refused.
    pub fn with_room(alloc: Global) -> Result<ActionPlaces, NoMemory>
        ensures { IfOk result (λ p. AreHere p []) }
    {
        Ok(ActionPlaces {
            slots: vec![in alloc; 0u32; MADE_MAX as usize + 1]?,
            blocks: vec![in alloc; 0u32; ACTION_SLOTS as usize]?,
        })
    }

    /// The slot of the action with this serial.
    pub fn slot(&self, serial: u32) -> u32
        requires { serial ≤ MADE_MAX }
        ensures slot { result ≡ slot_of self.now serial }
        ensures small { result < ACTION_SLOTS }
    {
        self.slots[serial as usize]
    }

    /// The block of the record at this slot.
    pub fn block(&self, slot: u32) -> u32
        requires { slot < ACTION_SLOTS }
        ensures { result ≡ block_of self.now slot }
    {
        self.blocks[slot as usize]
    }

    /// The action with this serial is at this slot, and its record in this block.
    pub fn put(&mut self, serial: u32, slot: u32, block: u32)
        requires serial { serial ≤ MADE_MAX }
        requires slot { slot < ACTION_SLOTS }
        ensures { self.new ≡ put_at self.old serial slot block }
    {
        self.slots[serial as usize] = slot;
        self.blocks[slot as usize] = block;
    }
    /// The slot has no record any more: its block is none of the pool's.
    pub fn clear(&mut self, slot: u32)
        requires { slot < ACTION_SLOTS }
        ensures { self.new ≡ cleared_at self.old slot }
    {
        self.blocks[slot as usize] = POOL_BLOCKS;
    }
}
