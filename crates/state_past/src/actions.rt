//! The parameters of the actions that were live.
ghost use Rattle.std.specs.Prelude.{◌≡◌, ◌+◌, ◌-◌, ◌∷◌, [], OnOk};
ghost use Rattle.filter_state.specs.States.{State};
ghost use Rattle.filter_lists.specs.Spells.{Spells};
ghost use Rattle.edit_effects.specs.OfEffects.Parts.{params_at};
ghost use Rattle.slot_pasts.specs.Pasts.{stood};
ghost use Rattle.state_past_laws.specs.OfChanges.Among.{listed};
ghost use Rattle.slot_pasts.specs.Serials.{past_at};
ghost use Rattle.state_past.specs.Serials.{serials_from};
ghost use Rattle.state_past.specs.Brought.{Brought, AllUpTo};
ghost use Rattle.state_past.specs.Told.{actions_of_all, StayLive};

use crate::gone_filters::GoingFilter;
use act_kinds::Params;
use filter_lists::Lists;
use slot_pasts::SerialPasts;
use tc_base::{NoMemory, Point};

/// From that point on the actions that these filters named are what they are in the lists. Those that are
/// live still are as they were, and nothing is put of them.
pub(crate) fn note_filters(
    actions: &mut SerialPasts<Params>,
    lists: &Lists,
    from: Point,
    going: &[GoingFilter],
) -> Result<(), NoMemory>
    requires { AllUpTo from (past_at actions.old) }
    ensures up_to { OnOk result (AllUpTo from (past_at actions.new)) }
    ensures brought { (s : State) → Spells lists.now s
        → StayLive s from (past_at actions.old) (actions_of_all going.now)
        → OnOk result (Brought from stood (params_at s) (actions_of_all going.now) (past_at actions.old)
        (past_at actions.new)) }
{
    for filter in going {
        note_lost(actions, lists, from, filter.actions.as_slice())?;
    }
    Ok(())
}

// The same of the actions of these serials.
fn note_lost(
    actions: &mut SerialPasts<Params>,
    lists: &Lists,
    from: Point,
    serials: &[u32],
) -> Result<(), NoMemory>
    requires { AllUpTo from (past_at actions.old) }
    ensures up_to { OnOk result (AllUpTo from (past_at actions.new)) }
    ensures brought { (s : State) → Spells lists.now s → StayLive s from (past_at actions.old) serials.now
        → OnOk result (Brought from stood (params_at s) serials.now (past_at actions.old)
        (past_at actions.new)) }
{
    for serial in serials {
        note_one_lost(actions, lists, from, *serial)?;
    }
    Ok(())
}

// The same of one action.
fn note_one_lost(
    actions: &mut SerialPasts<Params>,
    lists: &Lists,
    from: Point,
    serial: u32,
) -> Result<(), NoMemory>
    requires { AllUpTo from (past_at actions.old) }
    ensures up_to { OnOk result (AllUpTo from (past_at actions.new)) }
    ensures brought { (s : State) → Spells lists.now s
        → StayLive s from (past_at actions.old) (serial ∷ [])
        → OnOk result (Brought from stood (params_at s) (serial ∷ []) (past_at actions.old)
        (past_at actions.new)) }
{
    match params_of(lists, serial) {
        Some(_) => Ok(()),
        None => note_action(actions, lists, from, serial),
    }
}

/// From that point on an action is what it is in the lists, where one is named.
pub(crate) fn note_named(
    actions: &mut SerialPasts<Params>,
    lists: &Lists,
    from: Point,
    named: Option<u32>,
) -> Result<(), NoMemory>
    requires { AllUpTo from (past_at actions.old) }
    ensures { (s : State) → Spells lists.now s → OnOk result (Brought from stood (params_at s)
        (listed named) (past_at actions.old) (past_at actions.new)) }
{
    match named {
        Some(serial) => note_action(actions, lists, from, serial),
        None => Ok(()),
    }
}

/// The same of the actions that were made since so many were.
pub(crate) fn note_made(
    actions: &mut SerialPasts<Params>,
    lists: &Lists,
    from: Point,
    made: u32,
) -> Result<(), NoMemory>
    requires { AllUpTo from (past_at actions.old) }
    ensures { (s : State) → Spells lists.now s → OnOk result (Brought from stood (params_at s)
        (serials_from (made + 1) (lists.now.actions.made - made)) (past_at actions.old)
        (past_at actions.new)) }
{
    let last = lists.actions().made();
    let mut serial = made;
    while serial < last {
        serial += 1;
        note_action(actions, lists, from, serial)?;
    }
    Ok(())
}

// From that point on an action is what it is in the lists.
fn note_action(
    actions: &mut SerialPasts<Params>,
    lists: &Lists,
    from: Point,
    serial: u32,
) -> Result<(), NoMemory>
    requires { AllUpTo from (past_at actions.old) }
    ensures { (s : State) → Spells lists.now s → OnOk result (Brought from stood (params_at s)
        (serial ∷ []) (past_at actions.old) (past_at actions.new)) }
{
    let params = params_of(lists, serial);
    if params.is_none() && actions.at(serial, from).is_none() {
        return Ok(());
    }
    actions.put(serial, from, params)
}

// The parameters of an action that is live.
fn params_of(lists: &Lists, serial: u32) -> Option<Params>
    ensures { (s : State) → Spells lists.now s → result ≡ params_at s serial }
{
    match lists.actions().of_serial(serial) {
        Some(entry) => Some(entry.params),
        None => None,
    }
}
