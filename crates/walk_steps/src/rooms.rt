//! Room for what a walk keeps of its visits.
ghost use Rattle.walk_steps.specs.Told.{execution};

use std::alloc::Global;
use std::marker::Model;
use tc_base::{NoMemory, Point};
use walk_rules::VISITS_MAX;

/// The points of the visits that a walk has made, in order.
#[derive(Drop)]
pub(crate) struct PointRoom {
    points: Vec<Point>,
}

impl Model for PointRoom {
    ghost use Rattle.walk_rules.specs.declared.limits.TheConstants.{VISITS_MAX};
    ghost use Rattle.std.specs.Prelude.{◌≤◌, ℕ, List, length, vec_capacity};

    ghost Value = { List ℕ };

    ghost view = { λ r. r.points.items };

    ghost invariant = { λ r. (VISITS_MAX ≤ vec_capacity r.points) × (length r.points.items ≤ VISITS_MAX) };
}

impl PointRoom {
    ghost use Rattle.walk_rules.specs.declared.limits.TheConstants.{VISITS_MAX};
    ghost use Rattle.std.specs.Prelude.{◌≡◌, ◌<◌, ◌≤◌, ◌++◌, ◌∷◌, [], length, IfOk};

    pub(crate) fn with_room(alloc: Global) -> Result<PointRoom, NoMemory>
        ensures { IfOk result (λ r. r ≡ []) }
    {
        Ok(PointRoom {
            points: Vec::with_capacity(alloc, VISITS_MAX)?,
        })
    }

    pub(crate) fn clear(&mut self)
        ensures { self.new ≡ [] }
    {
        self.points.clear();
    }

    pub(crate) fn push(&mut self, point: Point)
        requires { length self.old < VISITS_MAX }
        ensures { self.new ≡ self.old ++ (point ∷ []) }
    {
        match self.points.push(point) {
            Ok(()) => {}
            Err(_) => unreachable!(),
        }
    }

    pub(crate) fn points(&self) -> &[Point]
        ensures same { result.now ≡ self.now }
        ensures few { length self.now ≤ VISITS_MAX }
    {
        &self.points
    }
}

/// The executions of a walk, in order: the serial of the action, and the frame's length before it.
#[derive(Drop)]
pub struct ExecutionRoom {
    executed: Vec<(u32, u32)>,
}

impl Model for ExecutionRoom {
    ghost use Rattle.walk_rules.specs.declared.limits.TheConstants.{VISITS_MAX};
    ghost use Rattle.std.specs.Prelude.{◌≤◌, ℕ, List, length, vec_capacity};
    ghost use Rattle.walk_steps.specs.Told.{IsShortRun};

    ghost Value = { List (ℕ × ℕ) };

    ghost view = { λ r. r.executed.items };

    ghost invariant = { λ r. (VISITS_MAX ≤ vec_capacity r.executed) × IsShortRun r.executed.items };
}

impl ExecutionRoom {
    ghost use Rattle.frame_edit.specs.declared.limits.TheConstants.{FRAME_MAX};
    ghost use Rattle.walk_rules.specs.declared.limits.TheConstants.{VISITS_MAX};
    ghost use Rattle.std.specs.Prelude.{◌≡◌, ◌<◌, ◌≤◌, ◌++◌, ◌∷◌, [], length, IfOk};
    ghost use Rattle.walk_steps.specs.Told.{IsShortRun};

    /// Room for what 65,536 visits run. No other call takes memory.
    pub fn with_room(alloc: Global) -> Result<ExecutionRoom, NoMemory>
        ensures { IfOk result (λ r. r ≡ []) }
    {
        Ok(ExecutionRoom {
            executed: Vec::with_capacity(alloc, VISITS_MAX)?,
        })
    }

    /// Forgets what ran.
    pub fn clear(&mut self)
        ensures { self.new ≡ [] }
    {
        self.executed.clear();
    }

    /// Puts an execution behind the others.
    #[inline]
    pub fn push(&mut self, serial: u32, frame_length: u32)
        requires room { length self.old < VISITS_MAX }
        requires short { frame_length ≤ FRAME_MAX }
        ensures { self.new ≡ self.old ++ ((serial, frame_length) ∷ []) }
    {
        match self.executed.push((serial, frame_length)) {
            Ok(()) => {}
            Err(_) => unreachable!(),
        }
    }

    /// What ran, in order.
    pub fn executed(&self) -> &[(u32, u32)]
        ensures same { result.now ≡ self.now }
        ensures short { IsShortRun result.now }
    {
        &self.executed
    }
}
