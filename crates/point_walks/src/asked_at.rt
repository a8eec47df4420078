//! Visits at a point that is given for each, of which it is noted what they asked for.

use crate::answers::PointAnswers;
use crate::at_points::Thing;
use act_kinds::{Control, Params};
use flow_fields::Key;
use tc_base::{Hook, Point};
use visit_room::{ActionName, HeadRoom, Hit, MaskName};
use walk_steps::Visits;

/// Answers the next visit at a point, and notes what was asked for and whether there was no answer. Whoever
/// only judges points needs no more, and no answer is copied for it.
#[derive(Drop)]
pub(crate) struct AskedAt<'a, A> {
    pub(crate) answers: &'a A,
    pub(crate) point: Point,
    pub(crate) thing: Thing,
    pub(crate) failed: bool,
}

impl<A: PointAnswers> Visits for AskedAt<'_, A> {
    ghost use Rattle.std.specs.Prelude.{◌≡◌, ◌⊎◌, true, Some, None};
    ghost use Rattle.point_walks.specs.Visits.{thing_of};

    ghost told = { λ old question answer point new.
        ((new ≡ record old { thing = thing_of question })
        × (A.answer old.answers.now old.point question ≡ Some answer))
        ⊎ ((new ≡ record old { thing = thing_of question; failed = true })
        × (A.answer old.answers.now old.point question ≡ None)) };

    ghost knows_mask = { λ v table mask. Unit {0} };

    ghost knows_action = { λ v action. Unit {0} };

    fn head(&mut self, hook: Hook, into: &mut HeadRoom) -> Point {
        self.thing = Thing::Tables;
        if !self.answers.head(self.point, hook, into) {
            self.failed = true;
        }
        self.point
    }

    fn lookup(
        &mut self,
        _table: u32,
        mask: MaskName,
        key: &Key<14>,
        into: &mut Hit,
    ) -> (bool, Point) {
        self.thing = Thing::Mask(mask.serial);
        into.clear();
        match self.answers.look_up(self.point, mask.serial, key, into) {
            Some(found) => (found, self.point),
            None => {
                self.failed = true;
                (false, self.point)
            }
        }
    }

    fn params(&mut self, action: ActionName) -> (Params, Point) {
        self.thing = Thing::Action(action.serial);
        match self.answers.params(self.point, action.serial) {
            Some(params) => (params, self.point),
            None => {
                self.failed = true;
                (Params::Gact(Control::Accept), self.point)
            }
        }
    }
}
