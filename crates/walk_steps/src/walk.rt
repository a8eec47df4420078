//! A walk, packet after packet.
ghost use Rattle.std.specs.Prelude.{◌≡◌, ◌≤◌, ◌++◌, ℕ, List, Some};
ghost use Rattle.tc_base.specs.declared.hook.Hook.{Hook as HookValue};
ghost use Rattle.walk_rules.specs.Walks.{Outcome, IsWalk, outcome_of};
ghost use Rattle.walk_steps.specs.Standings.{IsCourse, IsKnown, standing_of};
ghost use Rattle.walk_steps.specs.Walking.{IsBegun, progress_of};
ghost use Rattle.walk_steps.specs.Stands.{stand_of};

use crate::course::{Course, Stage};
use crate::rooms::{ExecutionRoom, PointRoom};
use crate::stand::Stand;
use crate::steps::step;
use crate::visits::Visits;
use flow_dissect::dissect;
use flow_fields::Key;
use frame_edit::Frame;
use std::alloc::Global;
use std::marker::Model;
use tc_base::{Hook, NoMemory, Point};
use visit_room::{HeadRoom, Hit};
use walk_rules::{RESTARTS_MAX, VISITS_MAX, Verdict};

/// Whether a walk needs a further visit.
#[derive(Clone, Copy, Debug, PartialEq, Eq)]
pub enum Progress {
    Going,
    Ended,
}

/// The walk of a packet, and room for the next one.
#[derive(Drop)]
pub struct Walk {
    course: Course,
}

impl Model for Walk {
    ghost use Rattle.walk_steps.specs.Standings.{IsCourse};
    ghost use Rattle.walk_steps.specs.Walking.{Walking};
    ghost use Rattle.walk_steps.specs.Seen.{walking_of};

    ghost Value = { Walking };

    ghost view = { λ w. walking_of w.course };

    ghost invariant = { λ w. IsCourse w.course };
}

impl Walk {
    ghost use Rattle.frame_edit.specs.declared.limits.TheConstants.{FRAME_MAX};
    ghost use Rattle.std.specs.Prelude.{◌≡◌, ◌≤◌, [], length, map, Some, IfOk, IfSome};
    ghost use Rattle.walk_rules.specs.Walks.{outcome_of, outcome_with};
    ghost use Rattle.walk_steps.specs.Told.{execution, IsShortRun};
    ghost use Rattle.walk_steps.specs.Walking.{IsOnWay, KnowsTold, IsBegun, WasVisited, progress_of};
    ghost use Rattle.walk_steps.specs.Stands.{stand_of};
    ghost use Rattle.flow_fields.specs.Values.{values_of};
    ghost use Rattle.flow_dissect.specs.Fields.{frame_values};

    /// Takes the room for walks: a frame, the tables of a hook, and what 65,536 visits leave. No other call
    /// takes memory.
    ///
    /// The walk has ended, with pass and without a visit: it takes no step until `begin`.
    pub fn with_room(alloc: Global) -> Result<Walk, NoMemory>
        ensures ended { IfOk result (λ walk. progress_of walk.standing ≡ Progress.Ended) }
        ensures passes { IfOk result (λ walk. outcome_of walk.standing
            ≡ Some (outcome_with Verdict.Pass walk.standing)) }
        ensures points { IfOk result (λ walk. walk.points ≡ []) }
        ensures executed { IfOk result (λ walk. walk.standing.executed ≡ []) }
    {
        let frame = Frame::with_room(alloc)?;
        let key = dissect(&frame);
        Ok(Walk {
            course: Course {
                hook: Hook::Ingress,
                frame,
                key,
                heads: HeadRoom::with_room(alloc)?,
                hit: Hit::new(),
                restarts: 0,
                points: PointRoom::with_room(alloc)?,
                executed: ExecutionRoom::with_room(alloc)?,
                stage: Stage::Over(Verdict::Pass),
            },
        })
    }

    /// Begins the walk of a frame of at most 262,144 bytes at a hook.
    pub fn begin(&mut self, hook: Hook, bytes: &[u8])
        requires { length bytes.now ≤ FRAME_MAX }
        ensures { IsBegun hook bytes.now self.new }
    {
        let course = &mut self.course;
        course.hook = hook;
        course.frame.load(bytes);
        course.key = dissect(&course.frame);
        course.heads.clear();
        course.hit.clear();
        course.restarts = RESTARTS_MAX;
        course.points.clear();
        course.executed.clear();
        course.stage = Stage::AtHead;
    }

    /// Makes one visit, and goes on by its answer. The walk must not have ended, and whoever answers must
    /// know what this walk was told.
    pub fn step<V: Visits>(&mut self, visits: &mut V) -> Progress
        requires going { IsOnWay self.old.standing }
        requires known { KnowsTold V.knows_mask V.knows_action visits.old self.old }
        ensures visit { WasVisited V.told visits.old visits.new self.old self.new }
        ensures progress { result ≡ progress_of self.new.standing }
        ensures known { KnowsTold V.knows_mask V.knows_action visits.new self.new }
    {
        step(&mut self.course, visits);
        how_it_goes(&self.course)
    }

    /// What becomes of the packet, once the walk has ended.
    pub fn verdict(&self) -> Verdict
        ensures { IfSome (outcome_of self.now.standing) (λ outcome. result ≡ outcome.verdict) }
    {
        let stage = self.course.stage;
        match stage {
            Stage::Over(verdict) => verdict,
            _ => Verdict::Drop,
        }
    }

    /// The frame as it is, with its metadata.
    pub fn frame(&self) -> &Frame
        ensures { result.now ≡ self.now.standing.frame }
    {
        &self.course.frame
    }

    /// The fields of the frame as it is.
    pub fn key(&self) -> &Key<14>
        ensures { values_of result.now.words ≡ frame_values self.now.standing.frame.bytes }
    {
        &self.course.key
    }

    /// Where the walk stands.
    pub fn stand(&self) -> Stand
        ensures { result ≡ stand_of self.now.standing.place }
    {
        stand_at(&self.course)
    }

    /// How many restarts are left.
    pub fn restarts(&self) -> u32
        ensures { result ≡ self.now.standing.restarts }
    {
        self.course.restarts
    }

    /// The point of each visit, in order.
    pub fn points(&self) -> &[Point]
        ensures { result.now ≡ self.now.points }
    {
        self.course.points.points()
    }

    /// The serial of each action that ran, with the frame's length before it, in order: 65,536 at most, of
    /// frames of 262,144 bytes at most.
    pub fn executed(&self) -> &[(u32, u32)]
        ensures same { map execution result.now ≡ self.now.standing.executed }
        ensures short { IsShortRun result.now }
    {
        self.course.executed.executed()
    }
}

// Where the walk stands.
fn stand_at(course: &Course) -> Stand
    requires { IsCourse course.now }
    ensures { result ≡ stand_of (standing_of course.now).place }
{
    let stage = course.stage;
    match stage {
        Stage::AtHead => Stand::AtHead,
        Stage::AtMask { table, mask } => {
            let head = &course.heads.heads()[table];
            Stand::AtMask {
                chain: head.chain,
                pref: head.pref,
                protocol: head.protocol,
                is_first: mask == 0,
            }
        }
        Stage::AtAction { run, .. } => Stand::AtAction {
            position: run.at(),
            length: course.hit.actions().len() as u32,
        },
        Stage::Over(verdict) => Stand::Over(verdict),
    }
}

// Whether a further visit is needed.
fn how_it_goes(course: &Course) -> Progress
    requires { IsCourse course.now }
    ensures { result ≡ progress_of (standing_of course.now) }
{
    if course.points.points().len() == VISITS_MAX {
        return Progress::Ended;
    }
    let stage = course.stage;
    match stage {
        Stage::Over(_) => Progress::Ended,
        _ => Progress::Going,
    }
}

/// Takes a walk that has begun to its end.
pub fn run<V: Visits>(walk: &mut Walk, visits: &mut V)
    requires begun { (hook : HookValue) × (bytes : List ℕ) × IsBegun hook bytes walk.old }
    ensures { (points : List ℕ) × (outcome : Outcome)
        × IsWalk V.told visits.old walk.old.standing points visits.new outcome
        × (outcome_of walk.new.standing ≡ Some outcome) × (walk.new.points ≡ points) }
{
    finish(&mut walk.course, visits);
}

// Makes visit after visit, until none is needed or none may be made.
fn finish<V: Visits>(course: &mut Course, visits: &mut V)
    requires course { IsCourse course.old }
    requires known { IsKnown V.knows_mask V.knows_action visits.old course.old }
    ensures walk { (points : List ℕ) × (outcome : Outcome)
        × IsWalk V.told visits.old (standing_of course.old) points visits.new outcome
        × (outcome_of (standing_of course.new) ≡ Some outcome)
        × (course.new.points ≡ course.old.points ++ points) }
    ensures course { IsCourse course.new }
{
    while let Progress::Going = how_it_goes(course) {
        step(course, visits);
    }
}
