//! What is kept of a walk from before a visit.

use tc_base::Hook;
use walk_steps::{Stand, Walk};

/// Where a walk stood before a visit: its hook, its place, how many visits were made, how many restarts were
/// left, and the frame's length in bytes.
#[derive(Clone, Copy, Debug)]
pub struct Before {
    pub(crate) hook: Hook,
    pub(crate) stand: Stand,
    pub(crate) visits: u32,
    pub(crate) restarts: u32,
    pub(crate) length: usize,
}

impl Before {
    ghost use Rattle.std.specs.Prelude.{◌≡◌};
    ghost use Rattle.trace_lines.specs.Parts.{before_of};

    /// What is kept of a walk at that hook, after so many visits.
    pub fn of(walk: &Walk, hook: Hook, visits: u32) -> Before
        requires hook { hook ≡ walk.now.standing.hook }
        requires visits { visits ≡ walk.now.standing.visits }
        ensures { result ≡ before_of walk.now.standing }
    {
        Before {
            hook,
            stand: walk.stand(),
            visits,
            restarts: walk.restarts(),
            length: walk.frame().bytes().len(),
        }
    }
}
