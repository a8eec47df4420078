//! Making an edit that adds a filter ready.
//!
//! The functions marked `inline(always)` take or return large values, which would otherwise be copied from
//! call to call.
ghost use Rattle.std.specs.Prelude.{◌≡◌, ◌+◌, ◌<◌, IfOk};
ghost use Rattle.filter_state.specs.Lines.{IsFilter};
ghost use Rattle.filter_state.specs.Steps.{filter_add};
ghost use Rattle.filter_tables.specs.Rows.{tables_on};
ghost use Rattle.hook_lists.specs.States.{both_of, state_of, AreKept};
ghost use Rattle.hook_lists.specs.Steps.{IsRoomier};
ghost use Rattle.filter_lists.specs.OfAdding.Looks.{IsFound};
ghost use Rattle.filter_lists.specs.OfAdding.Seats.{IsThere};
ghost use Rattle.filter_lists.specs.OfAdding.Ready.{IsArrival, IsAdded};
ghost use Rattle.filter_lists.specs.OfAdding.Additions.{IsPlanned};

use crate::adding::addition::Addition;
use crate::adding::arrival::{Arrival, Seat};
use crate::adding::looking::{Found, look};
use crate::adding::numbers::{free_handle, mask_serial, table_serial};
use crate::adding::seating::seat_for;
use filter_index::Filter;
use filter_state::{FilterLine, Refusal};
use hook_lists::{Kept, reserve_actions};
use tc_base::{NoMemory, Numbers};

/// Makes the line's filter ready to be added, or answers why it is refused.
///
/// `NoHook`, `NoPref`, `ProtocolClash`, `HandleTaken`, `Exists`, `NoSuchAction`, `TablesFull`, `MasksFull`,
/// `FiltersFull`, `ActionsFull`, `CountersFull`: the first that applies. `NoMemory`: none of these, and
/// memory was refused.
pub fn prepare_addition(kept: &mut Kept, line: &FilterLine) -> Result<Addition, Refusal>
    requires kept { AreKept kept.old }
    requires line { IsFilter line.now }
    requires tables { kept.old.tables_made + 1 < 4294967296 }
    requires masks { kept.old.masks_made + 1 < 4294967296 }
    ensures roomier { IsRoomier kept.old kept.new }
    ensures planned { IsPlanned kept.new result (filter_add (state_of kept.old) line.now) }
{
    let mut found = Found::new();
    look(kept, line, &mut found)?;
    Ok(make_ready(kept, line, &found)?)
}

// Takes all the memory that the filter will want.
fn make_ready(kept: &mut Kept, line: &FilterLine, found: &Found) -> Result<Addition, NoMemory>
    requires kept { AreKept kept.old }
    requires line { IsFilter line.now }
    requires found { IsFound kept.old line.now found.now }
    requires tables { kept.old.tables_made + 1 < 4294967296 }
    requires masks { kept.old.masks_made + 1 < 4294967296 }
    ensures roomier { IsRoomier kept.old kept.new }
    ensures added { IfOk result (λ addition. IsAdded kept.new line.now addition) }
{
    reserve_actions(kept, &found.actions)?;
    let seat = seat_for(kept, line.hook, found.place, &line.mask)?;
    let for_filter = found.actions.serials(kept.alloc)?;
    let serials = found.actions.serials(kept.alloc)?;
    let actions = found.actions.keep(kept.alloc)?;
    Ok(Addition {
        arrival: arrival_for(kept, line, found.pref, &seat, for_filter),
        seat,
        actions,
        serials,
    })
}

// The filter with all that it is to stand under.
#[inline(always)]
pub(crate) fn arrival_for(
    kept: &Kept,
    line: &FilterLine,
    pref: u32,
    seat: &Seat,
    actions: Numbers,
) -> Arrival
    requires kept { AreKept kept.now }
    requires there { IsThere (tables_on line.now.hook (both_of kept.now)) seat.now }
    requires tables { kept.now.tables_made + 1 < 4294967296 }
    requires masks { kept.now.masks_made + 1 < 4294967296 }
    ensures { IsArrival kept.now line.now pref actions seat.now result }
{
    let hook = line.hook;
    Arrival {
        hook,
        chain: line.chain,
        pref,
        protocol: line.protocol,
        table_serial: table_serial(kept, hook, seat),
        mask_serial: mask_serial(kept, hook, seat),
        mask: line.mask,
        filter: Filter {
            handle: line.handle.unwrap_or(free_handle(kept, hook, seat)),
            key: line.key,
            actions,
        },
    }
}
