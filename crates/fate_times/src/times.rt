//! The times of a packet's fates.

use std::alloc::Global;
use std::marker::Model;
use tc_base::NoMemory;
use walk_fate_laws::When;
use walk_steps::Walk;

/// When each fate of a packet is had; and room for those of the next packet. A fate is named by its place
/// among the packet's, from 0.
#[derive(Drop)]
pub struct Times {
    pub(crate) walk: Walk,
    pub(crate) whens: Vec<When>,
}

impl Model for Times {
    ghost use Rattle.std.specs.Prelude.{List};
    ghost use Rattle.walk_fate_laws.specs.declared.kinds.When.{When as WhenValue};

    ghost Value = { List WhenValue };

    ghost view = { λ t. t.whens.items };
}

impl Times {
    ghost use Rattle.std.specs.Prelude.{◌≡◌, ◌<◌, [], length, IfOk, IfSome};
    ghost use Rattle.std.specs.List.{slice_get};

    /// None. Takes the room of a walk.
    ///
    /// `NoMemory`: memory was refused.
    pub fn with_room(alloc: Global) -> Result<Times, NoMemory>
        ensures { IfOk result (λ times. times ≡ []) }
    {
        Ok(Times {
            walk: Walk::with_room(alloc)?,
            whens: Vec::new(alloc),
        })
    }

    /// When a fate is had.
    pub fn when(&self, place: usize) -> When
        requires { place < length self.now }
        ensures { IfSome (slice_get self.now place) (λ when. result ≡ when) }
    {
        self.whens[place]
    }
}
