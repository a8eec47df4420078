//! A whole run over actions that always give the same controls.
ghost use Rattle.act_list.specs.declared.limits.TheConstants.{JUMPS_MAX, LIST_MAX};
ghost use Rattle.std.specs.Prelude.{◌≡◌, ◌<◌, ◌≤◌, length};
ghost use Rattle.act_list.specs.Endings.{ending_from};

use crate::run::{Ending, ListRun, Next};
use act_kinds::Control;

/// How a list ends whose actions give these controls, each the same whenever it runs.
///
/// No command calls it: it carries the law that a run, step by step, ends as the rule for whole lists says.
pub fn ending_of(controls: &[Control]) -> Ending
    requires some { 0 < length controls.now }
    requires few { length controls.now ≤ LIST_MAX }
    ensures { result ≡ ending_from controls.now JUMPS_MAX controls.now }
{
    let mut run = ListRun::start(controls.len() as u32);
    loop {
        if let Next::Ended(ending) = run.next(controls[run.at() as usize]) {
            return ending;
        }
    }
}
