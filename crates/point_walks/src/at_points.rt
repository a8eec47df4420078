//! Visits at a point that is given for each.

use crate::answered::Answered;
use crate::answers::PointAnswers;
use act_kinds::{Control, Params};
use flow_fields::Key;
use tc_base::{Hook, Point};
use visit_room::{ActionName, HeadRoom, Hit, MaskName};
use walk_steps::Visits;

/// What a visit asks for: a mask or an action, by its serial, or the tables of a hook.
#[derive(Clone, Copy)]
pub enum Thing {
    Tables,
    Mask(u32),
    Action(u32),
}

/// Answers the next visit at a point, and keeps what was asked and answered; nothing, where there was no
/// answer.
#[derive(Drop)]
pub(crate) struct AtPoint<'a, A> {
    pub(crate) answers: &'a A,
    pub(crate) point: Point,
    pub(crate) answered: Option<Answered>,
}

impl<A: PointAnswers> Visits for AtPoint<'_, A> {
    ghost use Rattle.std.specs.Prelude.{◌≡◌, ◌⊎◌, Some, None, IsSomeAnd};
    ghost use Rattle.point_walks.specs.Answereds.{answered_as};

    ghost told = { λ old question answer point new.
        ((A.answer old.answers.now old.point question ≡ Some answer)
        × IsSomeAnd new.answered (λ told. answered_as question answer ≡ Some told))
        ⊎ ((A.answer old.answers.now old.point question ≡ None) × (new ≡ old)) };

    ghost knows_mask = { λ v table mask. Unit {0} };

    ghost knows_action = { λ v action. Unit {0} };

    fn head(&mut self, hook: Hook, into: &mut HeadRoom) -> Point {
        if self.answers.head(self.point, hook, into) {
            self.answered = Some(Answered::Tables(into.heads().len()));
        }
        self.point
    }

    fn lookup(
        &mut self,
        _table: u32,
        mask: MaskName,
        key: &Key<14>,
        into: &mut Hit,
    ) -> (bool, Point) {
        into.clear();
        let found = self.answers.look_up(self.point, mask.serial, key, into);
        let mask = mask.serial;
        match found {
            Some(true) => self.answered = Some(Answered::Filter { mask }),
            Some(false) => self.answered = Some(Answered::NoFilter { mask }),
            None => {}
        }
        (found.unwrap_or(false), self.point)
    }

    fn params(&mut self, action: ActionName) -> (Params, Point) {
        let serial = action.serial;
        match self.answers.params(self.point, serial) {
            Some(params) => {
                self.answered = Some(Answered::Acted { serial, params });
                (params, self.point)
            }
            None => (Params::Gact(Control::Accept), self.point),
        }
    }
}
