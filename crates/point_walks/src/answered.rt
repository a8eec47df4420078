//! What a visit was answered.

use crate::at_points::Thing;
use act_kinds::Params;

/// What a visit asked for, and what was answered: how many tables the hook has; whether a filter of the mask
/// is met; the parameters of the action. Masks and actions are named by serial.
#[derive(Clone, Copy, Debug, PartialEq, Eq)]
pub enum Answered {
    Tables(usize),
    NoFilter { mask: u32 },
    Filter { mask: u32 },
    Acted { serial: u32, params: Params },
}

impl Answered {
    ghost use Rattle.std.specs.Prelude.{◌≡◌};
    ghost use Rattle.point_walks.specs.Answereds.{thing_answered};

    /// What was asked for.
    #[inline]
    pub fn thing(&self) -> Thing
        ensures { result ≡ thing_answered self.now }
    {
        match self {
            Answered::Tables(_) => Thing::Tables,
            Answered::NoFilter { mask } | Answered::Filter { mask } => Thing::Mask(*mask),
            Answered::Acted { serial, .. } => Thing::Action(*serial),
        }
    }
}
