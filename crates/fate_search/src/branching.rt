//! Visits at branch points.
ghost use Rattle.std.specs.Prelude.{◌≡◌};
ghost use Rattle.fate_search.specs.Taken.{start_from};

use crate::answer_rooms::AnswerRooms;
use crate::asked::{FilterAsked, ParamsAsked, TablesAsked};
use crate::branch_points::{Branch, branch_from};
use crate::least_points::LeastPoints;
use act_kinds::{Control, Params};
use flow_fields::Key;
use point_walks::Thing;
use state_past::journals::PointChanges;
use tc_base::{Hook, Point};
use visit_room::{ActionName, HeadRoom, Hit, MaskName};
use walk_steps::Visits;

/// Answers the next visit at the first branch point from its bound on, or at a given branch point, and keeps
/// what was asked for and that branch; none, where there is none.
///
/// The answer is fetched once, where the question is asked first: as long as a question has an answer at its
/// bound, no other is fetched for the visit.
#[derive(Drop)]
pub(crate) struct Branching<'a, A> {
    pub(crate) answers: &'a A,
    pub(crate) rooms: &'a mut AnswerRooms,
    pub(crate) bounds: &'a LeastPoints,
    pub(crate) from: Option<Point>,
    pub(crate) ceiling: Point,
    pub(crate) thing: Thing,
    pub(crate) branch: Option<Branch>,
}

// Where a question is asked first.
fn start_at(least: Point, from: Option<Point>) -> Point
    ensures { result ≡ start_from least from }
{
    match from {
        Some(from) => least.max(from),
        None => least,
    }
}

impl<A: PointChanges> Visits for Branching<'_, A> {
    ghost use Rattle.std.specs.Prelude.{◌≡◌};
    ghost use Rattle.point_walks.specs.Visits.{thing_of};
    ghost use Rattle.fate_search.specs.LeastPoints.{least_of};
    ghost use Rattle.fate_search.specs.Taken.{IsStart, Took};

    // And the reference to the rooms is the same one.
    ghost told = { λ old question answer point new. (new.rooms.ghost_name ≡ old.rooms.ghost_name)
        × (new.thing ≡ thing_of question)
        × (IsStart (λ at. A.answer old.answers.now at question) (least_of old.bounds.now (thing_of question))
        old.from → Took (A.answer old.answers.now) (least_of old.bounds.now (thing_of question)) old.from old.ceiling
        question answer point new.branch) };

    ghost knows_mask = { λ v table mask. Unit {0} };

    ghost knows_action = { λ v action. Unit {0} };

    fn head(&mut self, hook: Hook, into: &mut HeadRoom) -> Point {
        let asked = TablesAsked {
            answers: self.answers,
            hook,
        };
        self.thing = Thing::Tables;
        let least = self.bounds.least(Thing::Tables);
        let start = start_at(least, self.from);
        let is_answered = self.answers.head(start, hook, into);
        self.branch = branch_from(&asked, self.rooms, least, start, is_answered, self.ceiling);
        let Some(branch) = self.branch else {
            return start;
        };
        if branch.point == start {
            return start;
        }
        self.answers.head(branch.point, hook, into);
        branch.point
    }

    fn lookup(
        &mut self,
        table: u32,
        mask: MaskName,
        key: &Key<14>,
        into: &mut Hit,
    ) -> (bool, Point) {
        let mask = mask.serial;
        let asked = FilterAsked {
            answers: self.answers,
            table,
            mask,
            key,
        };
        self.thing = Thing::Mask(mask);
        let least = self.bounds.least(Thing::Mask(mask));
        let start = start_at(least, self.from);
        into.clear();
        let found = self.answers.look_up(start, mask, key, into);
        self.branch = branch_from(
            &asked,
            self.rooms,
            least,
            start,
            found.is_some(),
            self.ceiling,
        );
        let Some(branch) = self.branch else {
            return (false, start);
        };
        if branch.point == start {
            return (found.unwrap_or(false), start);
        }
        into.clear();
        let found = self.answers.look_up(branch.point, mask, key, into);
        (found.unwrap_or(false), branch.point)
    }

    fn params(&mut self, action: ActionName) -> (Params, Point) {
        let serial = action.serial;
        let asked = ParamsAsked {
            answers: self.answers,
            serial,
        };
        self.thing = Thing::Action(serial);
        let least = self.bounds.least(Thing::Action(serial));
        let start = start_at(least, self.from);
        let params = self.answers.params(start, serial);
        self.branch = branch_from(
            &asked,
            self.rooms,
            least,
            start,
            params.is_some(),
            self.ceiling,
        );
        let Some(branch) = self.branch else {
            return (Params::Gact(Control::Accept), start);
        };
        if branch.point == start {
            return (params.unwrap_or(Params::Gact(Control::Accept)), start);
        }
        let params = self.answers.params(branch.point, serial);
        (
            params.unwrap_or(Params::Gact(Control::Accept)),
            branch.point,
        )
    }
}
