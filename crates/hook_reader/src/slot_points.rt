//! The points of a walk's look-ups.

use std::alloc::Global;
use std::marker::Model;
use store_history::places::MASK_SLOTS;
use tc_base::{NoMemory, Point};

/// The point of the last look-up at a slot, and the walk that made it.
#[derive(Clone, Copy)]
pub(crate) struct Mark {
    pub(crate) walk: u32,
    pub(crate) point: Point,
}

impl Mark {
    /// No point.
    const NONE: Mark = Mark { walk: 0, point: 0 };
}

/// For each slot of a mask the point of the present walk's last look-up there, and 0 where there was none.
///
/// A mark carries its walk, so that a new walk forgets all others in one step.
#[derive(Drop)]
pub(crate) struct SlotPoints {
    marks: Vec<Mark>,
    walk: u32,
}

impl Model for SlotPoints {
    ghost use Rattle.store_history.specs.declared.places.TheConstants.{MASK_SLOTS};
    ghost use Rattle.std.specs.Prelude.{◌≡◌, ◌≤◌, ℕ, List, length, All};
    ghost use Rattle.hook_reader.specs.Marks.{points_in};

    ghost Value = { List ℕ };

    ghost view = { λ p. points_in p.walk p.marks.items };

    ghost invariant = { λ p. (length p.marks.items ≡ MASK_SLOTS)
        × All (λ mark. mark.walk ≤ p.walk) p.marks.items };
}

impl SlotPoints {
    ghost use Rattle.store_history.specs.declared.places.TheConstants.{MASK_SLOTS};
    ghost use Rattle.std.specs.Prelude.{◌≡◌, ◌<◌, length, replicate, slice_index, slice_set, IfOk};

    /// Takes the room. No other call takes memory.
    pub(crate) fn with_room(alloc: Global) -> Result<SlotPoints, NoMemory>
        ensures { IfOk result (λ points. points ≡ replicate MASK_SLOTS 0) }
    {
        Ok(SlotPoints {
            marks: vec![in alloc; Mark::NONE; MASK_SLOTS as usize]?,
            walk: 0,
        })
    }

    /// Forgets all points.
    pub(crate) fn forget(&mut self)
        ensures { self.new ≡ replicate MASK_SLOTS 0 }
    {
        if self.walk == u32::MAX {
            self.marks.fill(Mark::NONE);
            self.walk = 0;
            return;
        }
        self.walk += 1;
    }

    /// The point at a slot.
    pub(crate) fn at(&self, slot: u32) -> Point
        requires { slot < MASK_SLOTS }
        ensures { result ≡ slice_index self.now slot }
    {
        let mark = self.marks[slot as usize];
        if mark.walk == self.walk {
            mark.point
        } else {
            0
        }
    }

    /// Puts another point at a slot.
    pub(crate) fn set(&mut self, slot: u32, point: Point)
        requires { slot < MASK_SLOTS }
        ensures { self.new ≡ slice_set self.old slot point }
    {
        let walk = self.walk;
        self.marks[slot as usize] = Mark { walk, point };
    }
}
