//! A whole walk over plain lists.
ghost use Rattle.frame_edit.specs.declared.limits.TheConstants.{FRAME_MAX};
ghost use Rattle.std.specs.Prelude.{◌≡◌, ◌≤◌, length, Some};
ghost use Rattle.filter_state.specs.States.{State};
ghost use Rattle.filter_state.specs.Sound.{Each};
ghost use Rattle.filter_lists.specs.Spells.{Spells};
ghost use Rattle.walk_rules.specs.declared.limits.TheConstants.{VISITS_MAX};
ghost use Rattle.walk_rules.specs.Walks.{outcome_of};
ghost use Rattle.walk_rules.specs.Plain.{plain_walk};

use crate::still::Still;
use filter_lists::Lists;
use tc_base::{Hook, Point};
use walk_steps::{Walk, run};

/// Takes a frame of at most 262,144 bytes through a hook of lists that stay as they are: the plain walk over
/// the state that they spell. Every visit has that point.
///
/// No command calls it: it carries the law that a walk that asks visit by visit ends as the plain walk does.
pub fn walk_still(walk: &mut Walk, lists: &Lists, point: Point, hook: Hook, bytes: &[u8])
    requires { length bytes.now ≤ FRAME_MAX }
    ensures plain { (s : State) → Spells lists.now s
        → outcome_of walk.new.standing ≡ Some (plain_walk s hook bytes.now) }
    ensures points { Each (λ visited. visited ≡ point) walk.new.points }
    ensures few { length walk.new.points ≤ VISITS_MAX }
{
    walk.begin(hook, bytes);
    let mut still = Still { lists, point };
    run(walk, &mut still);
}
