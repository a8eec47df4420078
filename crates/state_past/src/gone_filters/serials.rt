//! The serial of an action by its name.
ghost use Rattle.std.specs.Prelude.{◌≡◌};
ghost use Rattle.filter_state.specs.States.{State};
ghost use Rattle.filter_lists.specs.Spells.{Spells};
ghost use Rattle.state_past_laws.specs.OfChanges.Serials.{serial_named};

use act_kinds::Kind;
use filter_lists::Lists;

/// The serial of the live action of that kind and index.
pub fn serial_named(lists: &Lists, kind: Kind, index: u32) -> Option<u32>
    ensures { (s : State) → Spells lists.now s → result ≡ serial_named s kind index }
{
    match lists.actions().find(kind.number(), index) {
        Some(entry) => Some(entry.serial),
        None => None,
    }
}
