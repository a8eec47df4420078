//! One way after the other.
ghost use Rattle.frame_edit.specs.declared.limits.TheConstants.{FRAME_MAX};
ghost use Rattle.std.specs.Prelude.{◌≡◌, ◌≤◌, ℕ, List, length, Some, None, IfOk, OnOk};
ghost use Rattle.walk_steps.specs.Walking.{progress_of};
ghost use Rattle.fate_search.specs.Paths.{WalkTurn, WalkWay, IsThrough, AreToCome};
ghost use Rattle.fate_search.specs.Searched.{sought_by, IsOn, IsVisited, IsGone, AsksFrom, WentOn, HasCome};

use crate::answer_rooms::AnswerRooms;
use crate::branch_points::Branch;
use crate::branching::Branching;
use crate::least_points::LeastPoints;
use point_walks::{Thing, visit_at};
use state_past::journals::PointChanges;
use std::alloc::Global;
use tc_base::{Hook, NoMemory, Point};
use walk_steps::{Progress, Walk};

/// Room for the search of a packet's fates, kept from packet to packet.
#[derive(Drop)]
pub struct Searching {
    pub(crate) walk: Walk,
    pub(crate) bounds: LeastPoints,
    pub(crate) rooms: AnswerRooms,
    /// The visits of the way that is followed.
    pub(crate) path: Vec<Branch>,
}

/// Whose fates are looked for, and between which points.
#[derive(Drop)]
pub(crate) struct Packet<'a, A> {
    pub(crate) answers: &'a A,
    pub(crate) hook: Hook,
    pub(crate) bytes: &'a [u8],
    pub(crate) before: Point,
    pub(crate) ceiling: Point,
}

impl Searching {
    /// Takes the room of a walk, and that for answers that are compared. Later more is taken only for a way
    /// that is longer, or for a serial that is greater, than all before.
    ///
    /// `NoMemory`: memory was refused.
    pub fn with_room(alloc: Global) -> Result<Searching, NoMemory> {
        Ok(Searching {
            walk: Walk::with_room(alloc)?,
            bounds: LeastPoints::new(alloc),
            rooms: AnswerRooms::with_room(alloc)?,
            path: Vec::new(alloc),
        })
    }
}

// Makes a visit at a point where it is answered, and tells whether a further one is needed.
fn pass<A: PointChanges>(
    walk: &mut Walk,
    bounds: &mut LeastPoints,
    answers: &A,
    point: Point,
) -> Result<Progress, NoMemory>
    requires { IsOn (A.answer answers.now) point walk.old.standing bounds.old }
    ensures { IfOk result (λ progress. IsVisited (A.answer answers.now) point walk.old.standing
        walk.new.standing bounds.old bounds.new progress) }
{
    let Some((answered, progress)) = visit_at(walk, answers, point) else {
        unreachable!();
    };
    bounds.raise(answered.thing(), point)?;
    Ok(progress)
}

// Walks to where a way has come, and tells whether a further visit is needed.
fn walk_again<A: PointChanges>(
    walk: &mut Walk,
    bounds: &mut LeastPoints,
    packet: &Packet<'_, A>,
    path: &[Branch],
) -> Result<Progress, NoMemory>
    requires short { length packet.now.bytes.now ≤ FRAME_MAX }
    requires path { (turns : List WalkTurn) × IsGone (sought_by (A.answer packet.now.answers.now) packet.now)
        turns path.now }
    ensures { (turns : List WalkTurn)
        → IsGone (sought_by (A.answer packet.now.answers.now) packet.now) turns path.now
        → IfOk result (λ progress. (progress ≡ progress_of walk.new.standing)
        × IsThrough (sought_by (A.answer packet.now.answers.now) packet.now) turns path.now
        walk.new.standing bounds.new) }
{
    walk.begin(packet.hook, packet.bytes);
    bounds.begin(packet.before);
    let mut progress = Progress::Going;
    for branch in path {
        progress = pass(walk, bounds, packet.answers, branch.point)?;
    }
    Ok(progress)
}

// Makes the next visit, at its first branch or at a given one, puts that branch on the path, and tells
// whether a further visit is needed; nothing, where the question has no branch.
fn go_on<A: PointChanges>(
    room: &mut Searching,
    answers: &A,
    from: Option<Point>,
    ceiling: Point,
) -> Result<Option<Progress>, NoMemory>
    requires { AsksFrom (A.answer answers.now) from room.old.walk.standing room.old.bounds }
    ensures { IfOk result (λ progress. WentOn (A.answer answers.now) from ceiling room.old room.new progress) }
{
    let mut visits = Branching {
        answers,
        rooms: &mut room.rooms,
        bounds: &room.bounds,
        from,
        ceiling,
        thing: Thing::Tables,
        branch: None,
    };
    let progress = room.walk.step(&mut visits);
    let thing = visits.thing;
    let Some(branch) = visits.branch else {
        return Ok(None);
    };
    room.bounds.raise(thing, branch.point)?;
    room.path.push(branch)?;
    Ok(Some(progress))
}

/// Walks the way that is to come next, and tells whether it came to an end: where a question has no branch,
/// no way goes on.
pub(crate) fn follow<A: PointChanges>(
    room: &mut Searching,
    packet: &Packet<'_, A>,
    from: Option<Point>,
) -> Result<bool, NoMemory>
    requires short { length packet.now.bytes.now ≤ FRAME_MAX }
    requires path { (ways : List WalkWay)
        × AreToCome (sought_by (A.answer packet.now.answers.now) packet.now) room.old.path.items from ways }
    ensures { (ways : List WalkWay)
        → AreToCome (sought_by (A.answer packet.now.answers.now) packet.now) room.old.path.items from ways
        → IfOk result (λ is_end. HasCome (sought_by (A.answer packet.now.answers.now) packet.now)
        room.old.path.items from room.new.path.items room.new.walk.standing ways is_end) }
{
    let mut from = from;
    let mut progress = walk_again(&mut room.walk, &mut room.bounds, packet, &room.path)?;
    while let Progress::Going = progress {
        match go_on(room, packet.answers, from, packet.ceiling)? {
            Some(next) => progress = next,
            None => return Ok(false),
        }
        from = None;
    }
    Ok(true)
}
