//! The points at which a question is given an answer for the first time.
ghost use Rattle.std.specs.Prelude.{◌≡◌, ◌≤◌, suc, Some, IfSome};
ghost use Rattle.fate_search.specs.Branches.{is_given, is_first, IsNextFirst};
ghost use Rattle.fate_search.specs.Taken.{IsBranch};

use crate::answer_rooms::AnswerRooms;
use crate::asked::Asked;
use tc_base::Point;

/// A point at which a question gets an answer that no earlier one gave, and the next such point.
#[derive(Clone, Copy)]
pub(crate) struct Branch {
    pub(crate) point: Point,
    pub(crate) next: Option<Point>,
}

// Whether the answer at a point, which is held, is given from some point on, before that one.
fn was_given<Q: Asked>(asked: &Q, rooms: &mut AnswerRooms, low: Point, point: Point) -> bool
    requires { Q.told asked.now point ≡ Some (Q.held asked.now rooms.old) }
    ensures { result ≡ is_given (Q.told asked.now) low point }
{
    let mut at = low;
    while at < point {
        if asked.is_same(rooms, at) {
            return true;
        }
        match asked.next_change(at) {
            Some(later) => at = later,
            None => return false,
        }
    }
    false
}

// Whether a point has an answer that none before it gave.
fn is_branch<Q: Asked>(asked: &Q, rooms: &mut AnswerRooms, low: Point, point: Point) -> bool
    ensures { result ≡ is_first (Q.told asked.now) low point }
{
    asked.hold(rooms, point) && !was_given(asked, rooms, low, point)
}

// The first such point from one on, up to a ceiling. Between two changes there is none.
fn first_branch<Q: Asked>(
    asked: &Q,
    rooms: &mut AnswerRooms,
    low: Point,
    from: Point,
    ceiling: Point,
) -> Option<Point>
    requires { low ≤ from }
    ensures { IsNextFirst (Q.told asked.now) low from ceiling result }
{
    let mut at = from;
    while at <= ceiling {
        if is_branch(asked, rooms, low, at) {
            return Some(at);
        }
        match asked.next_change(at) {
            Some(later) => at = later,
            None => return None,
        }
    }
    None
}

// The first such point behind one.
fn next_branch<Q: Asked>(
    asked: &Q,
    rooms: &mut AnswerRooms,
    low: Point,
    point: Point,
    ceiling: Point,
) -> Option<Point>
    requires { low ≤ point }
    ensures { IsNextFirst (Q.told asked.now) low (suc point) ceiling result }
{
    match asked.next_change(point) {
        Some(later) => first_branch(asked, rooms, low, later, ceiling),
        None => None,
    }
}

// The first such point from one on, at which the question was asked already: whether it has an answer there
// is told.
fn first_from<Q: Asked>(
    asked: &Q,
    rooms: &mut AnswerRooms,
    low: Point,
    start: Point,
    is_answered: bool,
    ceiling: Point,
) -> Option<Point>
    requires { low ≤ start }
    ensures first { is_answered ≡ is_first (Q.told asked.now) low start
        → IsNextFirst (Q.told asked.now) low start ceiling result }
    ensures above { IfSome result (λ point. start ≤ point) }
{
    if is_answered && start <= ceiling {
        return Some(start);
    }
    first_branch(asked, rooms, low, start, ceiling)
}

/// The first branch of a question from a point on, at which it was asked already: whether it has an answer
/// there is told. Where it has, that answer is the first of its kind.
pub(crate) fn branch_from<Q: Asked>(
    asked: &Q,
    rooms: &mut AnswerRooms,
    low: Point,
    start: Point,
    is_answered: bool,
    ceiling: Point,
) -> Option<Branch>
    requires { low ≤ start }
    ensures { is_answered ≡ is_first (Q.told asked.now) low start
        → IsBranch (Q.told asked.now) low start ceiling result }
{
    match first_from(asked, rooms, low, start, is_answered, ceiling) {
        Some(point) => {
            let next = next_branch(asked, rooms, low, point, ceiling);
            Some(Branch { point, next })
        }
        None => None,
    }
}
