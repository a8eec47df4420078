//! The masks of a table.

use arrayvec::ArrayVec;
use std::marker::Model;
use visit_room::MaskName;

/// The masks of a table, in the order in which they were made: 16 at most.
#[derive(Drop)]
pub struct MaskSlots {
    masks: ArrayVec<MaskName, 16>,
}

impl Model for MaskSlots {
    ghost use Rattle.std.specs.Prelude.{◌≤◌, List, length};
    ghost use Rattle.visit_room.specs.declared.names.MaskName.{MaskName};

    ghost Value = { List MaskName };

    ghost view = { λ s. s.masks.items };

    ghost invariant = { λ s. length s.masks.items ≤ 16 };
}

impl MaskSlots {
    ghost use Rattle.std.specs.Prelude.{◌≡◌, ◌<◌, ◌≤◌, ◌++◌, ◌∷◌, [], length};

    /// No masks.
    pub fn new() -> MaskSlots
        ensures { result ≡ [] }
    {
        MaskSlots {
            masks: ArrayVec::new(),
        }
    }

    /// Lets all masks go.
    pub fn clear(&mut self)
        ensures { self.new ≡ [] }
    {
        self.masks.clear();
    }

    /// Puts a mask behind those that are there, fewer than 16.
    pub fn push(&mut self, mask: MaskName)
        requires { length self.old < 16 }
        ensures { self.new ≡ self.old ++ mask ∷ [] }
    {
        self.masks.push(mask);
    }

    /// The masks, in order.
    pub fn items(&self) -> &[MaskName]
        ensures same { result.now ≡ self.now }
        ensures few { length self.now ≤ 16 }
    {
        self.masks.as_slice()
    }
}
