//! Adding a filter that was made ready.
//!
//! The functions marked `inline(always)` take or return large values, which would otherwise be copied from
//! call to call.
ghost use Rattle.filter_state.specs.declared.limits.TheConstants.{FILTERS_MAX};
ghost use Rattle.std.specs.Prelude.{◌≡◌, ◌+◌, ◌<◌, ◌≤◌, []};
ghost use Rattle.filter_state.specs.Steps.{raised};
ghost use Rattle.filter_tables.specs.Seen.{plain_table};
ghost use Rattle.filter_tables.specs.Rows.{on_hook};
ghost use Rattle.hook_lists.specs.States.{state_of, both_of, room_on, AreKept};
ghost use Rattle.hook_lists.specs.Done.{IsDone};
ghost use Rattle.filter_lists.specs.OfAdding.Arrivals.{IsEmptyRoom};
ghost use Rattle.filter_lists.specs.OfAdding.Additions.{state_after, answer_of, IsReady};
ghost use Rattle.filter_lists.specs.OfAdding.Seats.{IsOpen, seated, table_of_arrival};

use crate::adding::addition::Addition;
use crate::adding::arrival::{Arrival, Seat};
use filter_index::Filters;
use filter_state::Done;
use filter_tables::{FilterTable, FilterTables, MaskLists};
use hook_lists::{Kept, carry_out};
use tc_base::Hook;

/// Binds and makes the actions, and puts the filter into its seat. It takes no memory.
pub fn add(kept: &mut Kept, addition: Addition) -> Done
    requires kept { AreKept kept.old }
    requires ready { IsReady kept.old addition }
    ensures { IsDone kept.new result (state_after (state_of kept.old) addition) (answer_of addition) }
{
    let Addition {
        arrival,
        seat,
        actions,
        serials,
    } = addition;
    let pref = arrival.pref;
    let handle = arrival.filter.handle;
    carry_out(kept, &actions);
    count(kept, &arrival);
    put(kept, arrival, seat);
    Done::Filter {
        pref,
        handle,
        serials,
    }
}

// One filter more, and a table or a mask more where the filter has the next serial.
pub(crate) fn count(kept: &mut Kept, arrival: &Arrival)
    requires few { kept.old.filters < FILTERS_MAX }
    requires table { arrival.now.table_serial ≤ kept.old.tables_made + 1 }
    requires mask { arrival.now.mask_serial ≤ kept.old.masks_made + 1 }
    ensures hooked { kept.new.hooked ≡ kept.old.hooked }
    ensures ingress { kept.new.ingress ≡ kept.old.ingress }
    ensures egress { kept.new.egress ≡ kept.old.egress }
    ensures actions { kept.new.actions ≡ kept.old.actions }
    ensures filters { kept.new.filters ≡ kept.old.filters + 1 }
    ensures tables_made { kept.new.tables_made ≡ raised kept.old.tables_made arrival.now.table_serial }
    ensures masks_made { kept.new.masks_made ≡ raised kept.old.masks_made arrival.now.mask_serial }
{
    kept.filters += 1;
    kept.tables_made = newest(kept.tables_made, arrival.table_serial);
    kept.masks_made = newest(kept.masks_made, arrival.mask_serial);
}

// The greater of the newest serial and one that was given, or is the next.
fn newest(made: u32, serial: u32) -> u32
    requires { serial ≤ made + 1 }
    ensures { result ≡ raised made serial }
{
    if serial > made { serial } else { made }
}

#[inline(always)]
pub(crate) fn put(kept: &mut Kept, arrival: Arrival, seat: Seat)
    requires seat { IsOpen (room_on arrival.hook kept.old) arrival seat }
    requires handle { 1 ≤ arrival.filter.handle }
    ensures hooked { kept.new.hooked ≡ kept.old.hooked }
    ensures both { both_of kept.new ≡ on_hook arrival.hook (seated arrival seat) (both_of kept.old) }
    ensures actions { kept.new.actions ≡ kept.old.actions }
    ensures tables_made { kept.new.tables_made ≡ kept.old.tables_made }
    ensures masks_made { kept.new.masks_made ≡ kept.old.masks_made }
    ensures filters { kept.new.filters ≡ kept.old.filters }
{
    match arrival.hook {
        Hook::Ingress => put_into(&mut kept.ingress, arrival, seat),
        Hook::Egress => put_into(&mut kept.egress, arrival, seat),
    }
}

#[inline(always)]
fn put_into(tables: &mut FilterTables, arrival: Arrival, seat: Seat)
    requires seat { IsOpen tables.old arrival seat }
    requires handle { 1 ≤ arrival.filter.handle }
    ensures { tables.new.tables ≡ seated arrival seat tables.old.tables }
{
    match seat {
        Seat::InMask { table, mask } => tables.put(table, mask, arrival.filter),
        Seat::NewMask { table, filters } => tables.put_mask(
            table,
            arrival.mask_serial,
            arrival.mask,
            filters,
            arrival.filter,
        ),
        Seat::NewTable { masks, filters } => {
            tables.insert(new_table(masks, filters, arrival));
        }
    }
}

fn new_table(mut masks: MaskLists, filters: Filters, arrival: Arrival) -> FilterTable
    requires masks { masks.masks ≡ [] }
    requires spare { 0 < masks.spare }
    requires filters { IsEmptyRoom filters }
    requires handle { 1 ≤ arrival.filter.handle }
    ensures { plain_table result ≡ table_of_arrival arrival }
{
    masks.put_mask(arrival.mask_serial, arrival.mask, filters, arrival.filter);
    FilterTable {
        serial: arrival.table_serial,
        chain: arrival.chain,
        pref: arrival.pref,
        protocol: arrival.protocol,
        masks,
    }
}
