//! Walks whose visits are all made at one point.
ghost use Rattle.frame_edit.specs.declared.limits.TheConstants.{FRAME_MAX};
ghost use Rattle.std.specs.Prelude.{◌≡◌, ◌≤◌, ℕ, Some, length};
ghost use Rattle.slot_pasts.specs.Next.{IsBefore};
ghost use Rattle.walk_rules.specs.Walks.{Outcome, outcome_of};
ghost use Rattle.walk_fate_laws.specs.Stays.{fate_at_end, fate_there, IsAnsweredAt};
ghost use Rattle.fate_times.specs.Staying.{sooner};

use act_kinds::{Control, Params};
use flow_fields::Key;
use state_past::journals::PointChanges;
use tc_base::{Hook, Point};
use visit_room::{ActionName, HeadRoom, Hit, MaskName};
use walk_steps::{Visits, Walk, run};

/// Whose fates are told, and between which points.
#[derive(Drop)]
pub(crate) struct Packet<'a, A> {
    pub(crate) answers: &'a A,
    pub(crate) hook: Hook,
    pub(crate) bytes: &'a [u8],
    pub(crate) before: Point,
    pub(crate) ceiling: Point,
}

/// Answers each visit at one point, and keeps the next point at which one of the answers is another.
#[derive(Drop)]
pub(crate) struct Staying<'a, A> {
    answers: &'a A,
    point: Point,
    next: Option<Point>,
}

impl<A: PointChanges> Visits for Staying<'_, A> {
    ghost use Rattle.std.specs.Prelude.{◌≡◌};
    ghost use Rattle.fate_times.specs.Staying.{IsVisitAt};

    ghost told = { λ old question answer point new.
        (A.answer new.answers.now ≡ A.answer old.answers.now) × (new.point ≡ old.point)
        × IsVisitAt (A.answer old.answers.now) question answer old.point old.next new.next };

    ghost knows_mask = { λ v table mask. Unit {0} };

    ghost knows_action = { λ v action. Unit {0} };

    fn head(&mut self, hook: Hook, into: &mut HeadRoom) -> Point {
        self.next = sooner(self.next, self.answers.head_after(self.point, hook));
        self.answers.head(self.point, hook, into);
        self.point
    }

    fn lookup(
        &mut self,
        _table: u32,
        mask: MaskName,
        key: &Key<14>,
        into: &mut Hit,
    ) -> (bool, Point) {
        let change = self.answers.look_up_after(self.point, mask.serial, key);
        self.next = sooner(self.next, change);
        into.clear();
        match self.answers.look_up(self.point, mask.serial, key, into) {
            Some(found) => (found, self.point),
            None => (false, self.point),
        }
    }

    fn params(&mut self, action: ActionName) -> (Params, Point) {
        let change = self.answers.params_after(self.point, action.serial);
        self.next = sooner(self.next, change);
        match self.answers.params(self.point, action.serial) {
            Some(params) => (params, self.point),
            None => (Params::Gact(Control::Accept), self.point),
        }
    }
}

// The earlier of two points, of which either may be none.
fn sooner(one: Option<Point>, other: Option<Point>) -> Option<Point>
    ensures { result ≡ sooner one other }
{
    match (one, other) {
        (Some(one), Some(other)) => Some(one.min(other)),
        (Some(one), None) => Some(one),
        (None, other) => other,
    }
}

/// Walks with all visits at one point, and tells the first point behind it at which something that the walk
/// asked for is another; none, where all stays as it is. Before that point a walk has the same fate.
pub(crate) fn stay<A: PointChanges>(
    walk: &mut Walk,
    packet: &Packet<'_, A>,
    point: Point,
) -> Option<Point>
    requires short { length packet.now.bytes.now ≤ FRAME_MAX }
    requires answered { IsAnsweredAt (A.answer packet.now.answers.now) packet.now.hook packet.now.bytes.now
        point }
    ensures fate { (later : ℕ) → point ≤ later → IsBefore later result
        → fate_there (A.answer packet.now.answers.now) packet.now.hook packet.now.bytes.now later
        ≡ fate_at_end walk.new.standing }
    ensures behind { IsBefore point result }
    ensures ended { (outcome : Outcome) × (outcome_of walk.new.standing ≡ Some outcome) }
{
    walk.begin(packet.hook, packet.bytes);
    let mut visits = Staying {
        answers: packet.answers,
        point,
        next: None,
    };
    run(walk, &mut visits);
    visits.next
}
