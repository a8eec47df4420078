//! An ear is told of an edit.
ghost use Rattle.std.specs.Prelude.{◌≡◌, ◌≤◌, ◌||◌, true};
ghost use Rattle.run_report.specs.Counts.{is_accepted};
ghost use Rattle.round_terms.specs.Hearing.{HeardIf};

use run_report::EventKind;
use tc_base::{Ear, EventName};

fn tell_one<E: Ear>(ear: &mut E, name: EventName)
    requires { 1 ≤ E.spare ear.old }
    ensures { HeardIf true E.name E.heard E.spare ear.old ear.new name }
{
    ear.accepted(name);
}

/// Tells an ear of an event that is an accepted edit, and of no other.
pub fn tell<E: Ear>(ear: &mut E, kind: &EventKind, name: EventName)
    requires { 1 ≤ E.spare ear.old }
    ensures { HeardIf (is_accepted kind.now) E.name E.heard E.spare ear.old ear.new name }
{
    match kind {
        EventKind::Accepted(_) => tell_one(ear, name),
        EventKind::Refused(_) => {}
        EventKind::Syntax { .. } => {}
    }
}

/// Whether a batch goes on behind a line that came to this.
pub fn goes_on(force: bool, kind: &EventKind) -> bool
    ensures { result ≡ (force || is_accepted kind.now) }
{
    force || matches!(kind, EventKind::Accepted(_))
}
