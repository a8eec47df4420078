//! Where answers change.

use flow_fields::Key;
use point_walks::PointAnswers;
use tc_base::{Hook, Point};

/// Answers at points, with the first point behind a given one at which an answer is other than there;
/// nothing, where it is the same at all later points. That something doesn't stand is an answer too.
pub trait PointChanges: PointAnswers {
    ghost use Rattle.std.specs.Prelude.{ℕ};
    ghost use Rattle.flow_fields.specs.Values.{values_of};
    ghost use Rattle.walk_rules.specs.Questions.{heads_of, filter_of, params_of};
    ghost use Rattle.state_past.specs.NextChange.{IsNextChange};

    /// The same of the tables of a hook.
    fn head_after(&self, point: Point, hook: Hook) -> Option<Point>
        ensures { IsNextChange (λ at. Self.answer self.now at (heads_of hook)) point result };

    /// The same of a frame of that key under a mask.
    fn look_up_after(&self, point: Point, mask: u32, key: &Key<14>) -> Option<Point>
        ensures { (table : ℕ) → IsNextChange
            (λ at. Self.answer self.now at (filter_of table mask (values_of key.now.words))) point result };

    /// The same of the parameters of an action.
    fn params_after(&self, point: Point, serial: u32) -> Option<Point>
        ensures { IsNextChange (λ at. Self.answer self.now at (params_of serial)) point result };
}
