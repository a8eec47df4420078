//! One table of a hook, as a walk is told it.

use crate::limits::HEAD_MASKS;
use crate::names::MaskName;
use arrayvec::ArrayVec;
use std::marker::Model;
use tc_base::Proto;

/// The masks of a table, in the order in which they were made: `HEAD_MASKS` at most.
#[derive(Drop)]
pub struct MaskNames {
    names: ArrayVec<MaskName, HEAD_MASKS>,
}

impl Model for MaskNames {
    ghost use Rattle.visit_room.specs.declared.limits.TheConstants.{HEAD_MASKS};
    ghost use Rattle.std.specs.Prelude.{◌≤◌, List, length};
    ghost use Rattle.visit_room.specs.declared.names.MaskName.{MaskName};

    ghost Value = { List MaskName };

    ghost view = { λ m. m.names.items };

    ghost invariant = { λ m. length m.names.items ≤ HEAD_MASKS };
}

impl MaskNames {
    ghost use Rattle.visit_room.specs.declared.limits.TheConstants.{HEAD_MASKS};
    ghost use Rattle.std.specs.Prelude.{◌≡◌, ◌<◌, ◌≤◌, ◌++◌, ◌∷◌, [], length};

    pub(crate) fn new() -> MaskNames
        ensures { result ≡ [] }
    {
        MaskNames {
            names: ArrayVec::new(),
        }
    }

    pub(crate) fn push(&mut self, mask: MaskName)
        requires { length self.old < HEAD_MASKS }
        ensures { self.new ≡ self.old ++ (mask ∷ []) }
    {
        self.names.push(mask);
    }

    /// The names, in order.
    pub fn as_slice(&self) -> &[MaskName]
        ensures same { result.now ≡ self.now }
        ensures few { length self.now ≤ HEAD_MASKS }
    {
        self.names.as_slice()
    }
}

/// A table of a hook. A packet meets it only in a walk through its chain, and only where its protocol is the
/// frame's.
#[derive(Drop)]
pub struct TableHead {
    pub serial: u32,
    pub chain: u32,
    pub pref: u32,
    pub protocol: Proto,
    pub masks: MaskNames,
}
