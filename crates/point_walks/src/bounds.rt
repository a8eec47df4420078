//! The bounds of a walk's points.

ghost use Rattle.std.specs.Prelude.{◌≡◌, ◌&&◌, nat_le, nat_lt};
ghost use Rattle.std.specs.List.{list_all, list_any};

use crate::fault::PointFault;
use tc_base::Point;

/// The floor is the lowest point that a walk's tables may have, the ceiling the highest point of any visit.
#[derive(Clone, Copy, Debug)]
pub struct Bounds {
    pub floor: Point,
    pub ceiling: Point,
}

impl Bounds {
    ghost use Rattle.std.specs.Prelude.{◌≡◌, Some, false};
    ghost use Rattle.point_walks.specs.Faults.{bounds_fault};
    ghost use Rattle.point_walks.specs.Latest.{are_within};

    /// Whether the first point is no lower than the floor, and none is lower than the first or above the
    /// ceiling.
    pub(crate) fn allow(self, points: &[Point]) -> bool
        ensures { result ≡ are_within self points.now }
    {
        match points.first() {
            None => true,
            Some(first) => self.floor <= *first && are_between(points, *first, self.ceiling),
        }
    }

    /// What is wrong with points that aren't within the bounds.
    pub(crate) fn fault(self, points: &[Point]) -> PointFault
        requires { are_within self points.now ≡ false }
        ensures { bounds_fault self points.now ≡ Some result }
    {
        let first = points[0];
        if first < self.floor {
            PointFault::Floor
        } else if any_above(points, self.ceiling) {
            PointFault::Late
        } else {
            PointFault::Early
        }
    }
}

// Whether a point is above this one.
fn any_above(points: &[Point], most: Point) -> bool
    ensures { result ≡ list_any (λ point. nat_lt most point) points.now }
{
    points.iter().any(|point| most < *point)
}

// Whether all points are between these two.
fn are_between(points: &[Point], least: Point, most: Point) -> bool
    ensures { result ≡ list_all (λ point. nat_le least point && nat_le point most) points.now }
{
    points.iter().all(|point| least <= *point && *point <= most)
}
