//! Actions that an edit makes or changes.
ghost use Rattle.std.specs.Prelude.{◌≡◌, ◌+◌, ◌-◌, ◌∷◌, [], Some, OnOk};
ghost use Rattle.filter_state.specs.States.{State};
ghost use Rattle.filter_lists.specs.Spells.{Spells};
ghost use Rattle.slot_pasts.specs.Pasts.{stood};
ghost use Rattle.slot_pasts.specs.Serials.{past_at};
ghost use Rattle.state_past_laws.specs.OfChanges.Among.{listed};
ghost use Rattle.state_past.specs.Serials.{serials_from};
ghost use Rattle.state_past.specs.Brought.{Brought as AreBrought, AllUpTo};
ghost use Rattle.filter_origins.specs.Noted.{changed_in};

use edit_lines::Line;
use filter_lists::{Edit, Lists};
use slot_pasts::SerialPasts;
use state_past::gone_filters::serial_named;
use tc_base::NoMemory;

/// The action that an edit changes by kind and index, asked before the edit. Nothing, where it isn't there:
/// then the edit makes it.
pub(crate) fn changed_action(lists: &Lists, edit: &Edit) -> Option<u32>
    ensures { (s : State) → Spells lists.now s → result ≡ changed_in s edit.now }
{
    match edit {
        Edit::ActionChange(line) => serial_named(lists, line.kind, line.index.unwrap_or(0)),
        _ => None,
    }
}

/// The action that was changed has that line from its edit on, where there is one.
pub(crate) fn put_changed(
    actions: &mut SerialPasts<Line>,
    changed: Option<u32>,
    by: Line,
) -> Result<(), NoMemory>
    requires { AllUpTo by.edit (past_at actions.old) }
    ensures { OnOk result (AreBrought by.edit stood (λ serial. Some by) (listed changed)
        (past_at actions.old) (past_at actions.new)) }
{
    match changed {
        Some(serial) => put_action(actions, serial, by),
        None => Ok(()),
    }
}

/// The actions behind the first so many that were made, up to the last, have that line from its edit on.
pub(crate) fn put_made(
    actions: &mut SerialPasts<Line>,
    made: u32,
    last: u32,
    by: Line,
) -> Result<(), NoMemory>
    requires { AllUpTo by.edit (past_at actions.old) }
    ensures { OnOk result (AreBrought by.edit stood (λ serial. Some by)
        (serials_from (made + 1) (last - made)) (past_at actions.old) (past_at actions.new)) }
{
    let mut serial = made;
    while serial < last {
        serial += 1;
        put_action(actions, serial, by)?;
    }
    Ok(())
}

// An action has that line from its edit on.
fn put_action(actions: &mut SerialPasts<Line>, serial: u32, by: Line) -> Result<(), NoMemory>
    requires { AllUpTo by.edit (past_at actions.old) }
    ensures { OnOk result (AreBrought by.edit stood (λ serial. Some by) (serial ∷ [])
        (past_at actions.old) (past_at actions.new)) }
{
    actions.put(serial, by.edit, Some(by))
}
