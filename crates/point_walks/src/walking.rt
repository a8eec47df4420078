//! The walk at given points.
ghost use Rattle.frame_edit.specs.declared.limits.TheConstants.{FRAME_MAX};
ghost use Rattle.std.specs.Prelude.{◌≡◌, ◌≤◌, length, Ok, Some, None, IfSome};
ghost use Rattle.walk_rules.specs.Steps.{Standing, question_of};
ghost use Rattle.walk_steps.specs.Walking.{IsOnWay, progress_of};
ghost use Rattle.point_walks.specs.Answereds.{IsVisitAt};
ghost use Rattle.point_walks.specs.Faults.{IsFault};
ghost use Rattle.point_walks.specs.Over.{answered_at};
ghost use Rattle.point_walks.specs.Visits.{IsWalkAt};
ghost use Rattle.point_walks.specs.declared.fault.PointFault.{PointFault as PointFaultValue};

use crate::answered::Answered;
use crate::answers::PointAnswers;
use crate::asked_at::AskedAt;
use crate::at_points::{AtPoint, Thing};
use crate::bounds::Bounds;
use crate::fault::PointFault;
use crate::latest::LatestPoints;
use tc_base::{Hook, NoMemory, Point};
use walk_steps::{Progress, Walk};

/// Makes one visit of a walk that hasn't ended, answered at that point, and tells what was asked and
/// answered, and whether a further visit is needed; nothing, where there is no answer at that point. The walk
/// leads nowhere then.
#[inline]
pub fn visit_at<A: PointAnswers>(
    walk: &mut Walk,
    answers: &A,
    point: Point,
) -> Option<(Answered, Progress)>
    requires { IsOnWay walk.old.standing }
    ensures visit { IfSome result
        (λ told. IsVisitAt (A.answer answers.now) point walk.old.standing walk.new.standing told.0) }
    ensures progress { IfSome result (λ told. told.1 ≡ progress_of walk.new.standing) }
    ensures none { result ≡ None
        → answered_at (A.answer answers.now) point (question_of walk.old.standing) ≡ None }
{
    let mut visits = AtPoint {
        answers,
        point,
        answered: None,
    };
    let progress = walk.step(&mut visits);
    match visits.answered {
        Some(answered) => Some((answered, progress)),
        None => None,
    }
}

/// Walks a frame of at most 262,144 bytes with a visit at each of these points, and tells why that isn't a
/// walk; nothing, where it is one: its last visit is the last one, and the points are lawful within these
/// bounds.
///
/// `NoMemory`: memory was refused.
pub fn walk_at<A: PointAnswers>(
    walk: &mut Walk,
    latest: &mut LatestPoints,
    answers: &A,
    hook: Hook,
    bytes: &[u8],
    bounds: Bounds,
    points: &[Point],
) -> Result<Option<PointFault>, NoMemory>
    requires { length bytes.now ≤ FRAME_MAX }
    ensures yes { result ≡ Ok None
        → IsWalkAt (A.answer answers.now) hook bytes.now bounds points.now walk.new.standing }
    ensures fault { (fault : PointFaultValue) → result ≡ Ok (Some fault)
        → IsFault (A.answer answers.now) hook bytes.now bounds points.now fault }
    ensures no { (fault : PointFaultValue) → result ≡ Ok (Some fault) → (end : Standing)
        → IsWalkAt (A.answer answers.now) hook bytes.now bounds points.now end → ⊥ }
{
    if !bounds.allow(points) {
        return Ok(Some(bounds.fault(points)));
    }
    walk.begin(hook, bytes);
    latest.begin();
    let mut place = 0;
    while place < points.len() {
        let point = points[place];
        let mut visits = AskedAt {
            answers,
            point,
            thing: Thing::Tables,
            failed: false,
        };
        let progress = walk.step(&mut visits);
        if visits.failed {
            return Ok(Some(PointFault::Gone(visits.thing)));
        }
        let rises = latest.rise(visits.thing, point)?;
        if !rises {
            return Ok(Some(PointFault::Falling));
        }
        place += 1;
        if let Progress::Ended = progress {
            if place == points.len() {
                return Ok(None);
            }
            return Ok(Some(PointFault::TooMany));
        }
    }
    Ok(Some(PointFault::TooFew))
}
