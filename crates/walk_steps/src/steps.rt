//! One visit of a walk, and what follows its answer.
ghost use Rattle.std.specs.Prelude.{◌≡◌, ◌<◌, length};
ghost use Rattle.walk_rules.specs.declared.limits.TheConstants.{VISITS_MAX};
ghost use Rattle.walk_steps.specs.Standings.{IsCourse, IsGoing, IsKnown, Stepped};

use crate::course::{Course, Stage};
use crate::ends::{end_list, execute};
use crate::stops::{first_stop, hit_stop, unhit_stop};
use crate::visits::Visits;
use act_list::{ListRun, Next};

// Asks for the tables of the hook.
fn head_step<V: Visits>(course: &mut Course, visits: &mut V)
    requires stage { course.old.stage ≡ Stage.AtHead }
    requires course { IsCourse course.old }
    requires left { length course.old.points < VISITS_MAX }
    ensures step { Stepped V.told visits.old visits.new course.old course.new }
    ensures course { IsCourse course.new }
    ensures known { IsKnown V.knows_mask V.knows_action visits.new course.new }
{
    let point = visits.head(course.hook, &mut course.heads);
    course.points.push(point);
    course.stage = first_stop(&course.heads, 0, 0, course.frame.ether_type());
}

// Looks the frame up in a mask.
fn mask_step<V: Visits>(course: &mut Course, visits: &mut V, table: usize, mask: usize)
    requires stage { course.old.stage ≡ Stage.AtMask table mask }
    requires course { IsCourse course.old }
    requires left { length course.old.points < VISITS_MAX }
    requires known { IsKnown V.knows_mask V.knows_action visits.old course.old }
    ensures step { Stepped V.told visits.old visits.new course.old course.new }
    ensures course { IsCourse course.new }
    ensures known { IsKnown V.knows_mask V.knows_action visits.new course.new }
{
    let head = &course.heads.heads()[table];
    let name = head.masks.as_slice()[mask];
    let (found, point) = visits.lookup(head.serial, name, &course.key, &mut course.hit);
    course.points.push(point);
    course.stage = if found {
        hit_stop(&course.heads, &course.hit, table, mask)
    } else {
        unhit_stop(&course.heads, table, mask, course.frame.ether_type())
    };
}

// Asks for the parameters of an action, and runs it.
fn action_step<V: Visits>(course: &mut Course, visits: &mut V, table: usize, mut run: ListRun)
    requires stage { course.old.stage ≡ Stage.AtAction table run }
    requires course { IsCourse course.old }
    requires left { length course.old.points < VISITS_MAX }
    requires known { IsKnown V.knows_mask V.knows_action visits.old course.old }
    ensures step { Stepped V.told visits.old visits.new course.old course.new }
    ensures course { IsCourse course.new }
    ensures known { IsKnown V.knows_mask V.knows_action visits.new course.new }
{
    let name = course.hit.actions()[run.at() as usize];
    let (params, point) = visits.params(name);
    course.points.push(point);
    let control = execute(course, name.serial, &params);
    match run.next(control) {
        Next::At(_) => course.stage = Stage::AtAction { table, run },
        Next::Ended(ending) => end_list(course, table, ending),
    }
}

/// Makes the next visit of a walk that hasn't ended, and goes on by its answer.
pub(crate) fn step<V: Visits>(course: &mut Course, visits: &mut V)
    requires going { IsGoing course.old }
    requires course { IsCourse course.old }
    requires known { IsKnown V.knows_mask V.knows_action visits.old course.old }
    ensures step { Stepped V.told visits.old visits.new course.old course.new }
    ensures course { IsCourse course.new }
    ensures known { IsKnown V.knows_mask V.knows_action visits.new course.new }
{
    let stage = course.stage;
    match stage {
        Stage::AtHead => head_step(course, visits),
        Stage::AtMask { table, mask } => mask_step(course, visits, table, mask),
        Stage::AtAction { table, run } => action_step(course, visits, table, run),
        Stage::Over(_) => unreachable!(),
    }
}
