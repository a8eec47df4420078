//! Adding a filter at once, for whoever asks nothing between the looking and the doing.
//!
//! The functions marked `inline(always)` take or return large values, which would otherwise be copied from
//! call to call.
ghost use Rattle.std.specs.Prelude.{◌≡◌, ◌+◌, ◌<◌, Ok, IfOk, OnErr};
ghost use Rattle.filter_state.specs.Lines.{IsFilter};
ghost use Rattle.filter_state.specs.Steps.{filter_add};
ghost use Rattle.hook_lists.specs.States.{state_of, AreKept};
ghost use Rattle.hook_lists.specs.Steps.{IsRoomier};
ghost use Rattle.hook_lists.specs.Done.{IsDone, IsDoneAtOnce};
ghost use Rattle.filter_lists.specs.OfAdding.Looks.{IsFound};
ghost use Rattle.filter_lists.specs.OfAdding.Additions.{IsReady, addition_of, state_after, answer_of};

use crate::adding::arrival::{Arrival, Seat};
use crate::adding::doing::{count, put};
use crate::adding::looking::{Found, look};
use crate::adding::planning::arrival_for;
use crate::adding::seating::seat_for;
use action_plan::ActionPlan;
use filter_state::{Done, FilterLine, Refusal};
use hook_lists::{Kept, carry_plan, reserve_actions};
use tc_base::{NoMemory, Numbers};

/// Adds the line's filter, or answers why it is refused, and then changes nothing.
///
/// The refusals are those of `prepare_addition`. What would be handed from there to `add` is large, and isn't
/// made here.
pub fn add_at_once(kept: &mut Kept, line: &FilterLine) -> Result<Done, Refusal>
    requires kept { AreKept kept.old }
    requires line { IsFilter line.now }
    requires tables { kept.old.tables_made + 1 < 4294967296 }
    requires masks { kept.old.masks_made + 1 < 4294967296 }
    ensures { IsDoneAtOnce kept.old kept.new result (filter_add (state_of kept.old) line.now) }
{
    let mut found = Found::new();
    look(kept, line, &mut found)?;
    Ok(join(kept, line, &found)?)
}

// Takes all the memory that the filter wants, binds and makes its actions, and puts it into its seat.
#[inline(always)]
fn join(kept: &mut Kept, line: &FilterLine, found: &Found) -> Result<Done, NoMemory>
    requires kept { AreKept kept.old }
    requires line { IsFilter line.now }
    requires found { IsFound kept.old line.now found.now }
    requires tables { kept.old.tables_made + 1 < 4294967296 }
    requires masks { kept.old.masks_made + 1 < 4294967296 }
    ensures refused { OnErr result (IsRoomier kept.old kept.new) }
    ensures done { IfOk result
        (λ done. IsDoneAtOnce kept.old kept.new (Ok done) (filter_add (state_of kept.old) line.now)) }
{
    reserve_actions(kept, &found.actions)?;
    let seat = seat_for(kept, line.hook, found.place, &line.mask)?;
    let for_filter = found.actions.serials(kept.alloc)?;
    let serials = found.actions.serials(kept.alloc)?;
    let arrival = arrival_for(kept, line, found.pref, &seat, for_filter);
    Ok(settle(kept, arrival, seat, &found.actions, serials))
}

// Binds and makes the actions, and puts the filter into its seat. It takes no memory.
#[inline(always)]
fn settle(
    kept: &mut Kept,
    arrival: Arrival,
    seat: Seat,
    plan: &ActionPlan,
    serials: Numbers,
) -> Done
    requires kept { AreKept kept.old }
    requires ready { IsReady kept.old (addition_of arrival seat plan.now serials) }
    ensures { IsDone kept.new result
        (state_after (state_of kept.old) (addition_of arrival seat plan.now serials))
        (answer_of (addition_of arrival seat plan.now serials)) }
{
    let pref = arrival.pref;
    let handle = arrival.filter.handle;
    carry_plan(kept, plan);
    count(kept, &arrival);
    put(kept, arrival, seat);
    Done::Filter {
        pref,
        handle,
        serials,
    }
}
