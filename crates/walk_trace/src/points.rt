//! At which points the visits of a walk are answered.

use tc_base::Point;

/// One point for all visits of a walk, or a point for each, in order. Behind the last of these the point
/// is 0.
#[derive(Clone, Copy, Debug)]
pub enum Points<'a> {
    All(Point),
    Each(&'a [Point]),
}

impl Points<'_> {
    ghost use Rattle.std.specs.Prelude.{◌≡◌};
    ghost use Rattle.walk_trace.specs.Points.{point_at};

    /// The point of a visit behind so many others.
    pub(crate) fn at(self, visits: u32) -> Point
        ensures { result ≡ point_at self.entry visits }
    {
        match self {
            Points::All(point) => point,
            Points::Each(points) => points.get(visits as usize).copied().unwrap_or(0),
        }
    }
}
