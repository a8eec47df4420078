//! From a way to the next one.
ghost use Rattle.std.specs.Prelude.{ℕ, List};
ghost use Rattle.fate_search.specs.Paths.{Sought, WalkWay, AreBehind};
ghost use Rattle.fate_search.specs.Turned.{IsTurnedBack, IsHigher};

use crate::branch_points::Branch;
use tc_base::Point;

/// Goes back to the last visit that has a further branch: drops it with all behind it, and tells the point of
/// that branch. No visit has one once all ways were gone.
pub(crate) fn turn_back(path: &mut Vec<Branch>) -> Option<Point>
    ensures turned { (s : Sought) (ways : List WalkWay) → AreBehind s path.old.items ways
        → IsTurnedBack s path.new.items result ways }
    ensures higher { (s : Sought) (ways : List WalkWay) → AreBehind s path.old.items ways
        → IsHigher s.ceiling path.old.items path.new.items result }
{
    while let Some(branch) = path.pop() {
        if branch.next.is_some() {
            return branch.next;
        }
    }
    None
}
