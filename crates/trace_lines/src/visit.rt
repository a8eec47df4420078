//! A visit that was made.

use crate::before::Before;
use crate::look_ups::met_origin;
use crate::naming::Naming;
use edit_lines::Origin;
use flow_fields::Key;
use point_walks::Answered;
use tc_base::Point;

/// What is kept from before a visit, what came of it and where, and the frame's fields and length in bytes
/// behind it.
#[derive(Clone, Copy)]
pub(crate) struct Visit<'a> {
    pub(crate) before: Before,
    pub(crate) answered: Answered,
    pub(crate) point: Point,
    pub(crate) key: &'a Key<14>,
    pub(crate) length: usize,
}

impl Visit<'_> {
    ghost use Rattle.std.specs.Prelude.{◌≡◌};
    ghost use Rattle.trace_lines.specs.Parts.{origin_of};

    /// The filter that was met, if one was.
    pub(crate) fn origin<N: Naming>(&self, names: &N) -> Option<Origin>
        ensures { result ≡ origin_of (N.names names.now) self.now }
    {
        match self.answered {
            Answered::Filter { mask } => met_origin(names, self.point, mask, self.key),
            _ => None,
        }
    }
}
