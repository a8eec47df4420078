//! What a list's ending makes of a walk, and an action of its frame.
ghost use Rattle.std.specs.Prelude.{◌≡◌, ◌<◌, ◌≤◌, ◌-◌, length, drop, []};
ghost use Rattle.std.specs.Prelude.{List};
ghost use Rattle.act_kinds.specs.Acts.{FitsFrames, control_given};
ghost use Rattle.walk_rules.specs.Steps.{ran};
ghost use Rattle.walk_steps.specs.Told.{heads_told};
ghost use Rattle.walk_steps.specs.Standings.{IsStop, IsCourse, standing_of, actions_at, list_ended};
ghost use Rattle.walk_steps.specs.Standings.{restart_at};

use crate::course::{Course, Stage};
use crate::stops::first_stop;
use act_kinds::{Control, Params, act};
use act_list::Ending;
use flow_dissect::dissect;
use walk_rules::Verdict;

/// Runs an action on the frame, and records that. The frame is dissected again where its bytes may have
/// changed.
pub(crate) fn execute(course: &mut Course, serial: u32, params: &Params) -> Control
    requires fits { FitsFrames params.now }
    requires course { IsCourse course.old }
    requires room { length course.old.executed < length course.old.points }
    ensures control { result ≡ control_given params.now course.old.frame }
    ensures ran { standing_of course.new ≡ ran (standing_of course.old) serial params.now }
    ensures course { IsCourse course.new }
    ensures names { (course.new.heads.tables ≡ course.old.heads.tables) × (course.new.hit ≡ course.old.hit)
        × (course.new.stage ≡ course.old.stage) × (course.new.points ≡ course.old.points) }
{
    let length = course.frame.bytes().len();
    course.executed.push(serial, length as u32);
    let control = act(params, &mut course.frame);
    if let Params::Vlan(..) = params {
        course.key = dissect(&course.frame);
    }
    control
}

/// Where the walk stands after the list of a table's filter has ended.
pub(crate) fn end_list(course: &mut Course, table: usize, ending: Ending)
    requires table { table < length course.old.heads.tables }
    requires course { IsCourse course.old }
    ensures goes { standing_of course.new
        ≡ list_ended (standing_of course.old) (heads_told (drop table course.old.heads.tables)) ending }
    ensures course { IsCourse course.new }
    ensures unhit { actions_at course.new.hit course.new.stage ≡ [] }
    ensures names { (course.new.heads.tables ≡ course.old.heads.tables) × (course.new.hit ≡ course.old.hit)
        × (course.new.points ≡ course.old.points) }
{
    match ending {
        Ending::Accept | Ending::Pipe => course.stage = Stage::Over(Verdict::Pass),
        Ending::Shot => course.stage = Stage::Over(Verdict::Drop),
        Ending::Unspec => {
            let chain = course.heads.heads()[table].chain;
            course.stage = first_stop(&course.heads, table + 1, chain, course.frame.ether_type());
        }
        Ending::Reclassify => restart(course, 0),
        Ending::Goto(chain) => restart(course, chain),
    }
}

// Goes to the first table of a chain, where a restart is left.
fn restart(course: &mut Course, chain: u32)
    requires course { IsCourse course.old }
    ensures goes { standing_of course.new ≡ restart_at (standing_of course.old) chain }
    ensures course { IsCourse course.new }
    ensures unhit { actions_at course.new.hit course.new.stage ≡ [] }
    ensures names { (course.new.heads.tables ≡ course.old.heads.tables) × (course.new.hit ≡ course.old.hit)
        × (course.new.points ≡ course.old.points) }
{
    if course.restarts == 0 {
        course.stage = Stage::Over(Verdict::Drop);
        return;
    }
    course.restarts -= 1;
    course.stage = first_stop(&course.heads, 0, chain, course.frame.ether_type());
}
