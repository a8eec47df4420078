//! The run of a filter's list of actions.
ghost use Rattle.std.specs.Prelude.{◌≡◌, ◌<◌, ◌≤◌, ◌+◌, length};
ghost use Rattle.act_list.specs.declared.limits.TheConstants.{JUMPS_MAX, LIST_MAX};
ghost use Rattle.filter_state.specs.States.{State};
ghost use Rattle.filter_state.specs.Sound.{Each};
ghost use Rattle.filter_lists.specs.Spells.{Spells};
ghost use Rattle.walk_rules.specs.Plain.{run_list};
ghost use Rattle.classify_walk.specs.Answered.{StandsAction};
ghost use Rattle.plain_walk.specs.Courses.{carried_from, IsCourse};
ghost use Rattle.plain_walk.specs.Runs.{HasRun, list_end};

use crate::course::Course;
use act_kinds::Control;
use act_list::{Ending, ListRun, Next};
use filter_lists::Lists;

/// Runs a list of actions on the frame, each for one visit: how the list ends, or `None` where the visits
/// were spent before.
pub(crate) fn run_list(
    course: &mut Course,
    lists: &Lists,
    serials: &[u32],
    came: &[u8],
) -> Option<Ending>
    requires some { 0 < length serials.now }
    requires few { length serials.now ≤ LIST_MAX }
    requires stand { Each (StandsAction lists.now) serials.now }
    requires course { IsCourse came.now course.old }
    ensures ran { (s : State) → Spells lists.now s
        → run_list s serials.now course.old.left (carried_from came.now course.old) 0 JUMPS_MAX
        ≡ list_end result course.new.left (carried_from came.now course.new) }
    ensures course { IsCourse came.now course.new }
{
    let mut run = ListRun::start(serials.len() as u32);
    while course.left > 0 {
        let control = run_action(course, lists, serials[run.at() as usize], came);
        if let Next::Ended(ending) = run.next(control) {
            return Some(ending);
        }
    }
    None
}

// Runs the action of that serial.
fn run_action(course: &mut Course, lists: &Lists, serial: u32, came: &[u8]) -> Control
    requires stands { StandsAction lists.now serial }
    requires course { IsCourse came.now course.old }
    requires some { 0 < course.old.left }
    ensures ran { (s : State) → Spells lists.now s → HasRun s serial came.now course.old course.new result }
    ensures course { IsCourse came.now course.new }
    ensures left { course.new.left + 1 ≡ course.old.left }
{
    let Some(entry) = lists.actions().of_serial(serial) else {
        unreachable!();
    };
    course.execute(came, serial, &entry.params)
}
