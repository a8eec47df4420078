//! A seat for a filter that is to come, with all the memory that it will want.
ghost use Rattle.std.specs.Prelude.{◌≡◌, ℕ, ◌<◌, List, length, Some, None, IfOk, IfSome};
ghost use Rattle.filter_tables.specs.Places.{item_at, place_where};
ghost use Rattle.filter_tables.specs.Plain.{PlainTable};
ghost use Rattle.filter_tables.specs.Changes.{has_words};
ghost use Rattle.filter_tables.specs.Rows.{tables_on};
ghost use Rattle.hook_lists.specs.States.{both_of, room_on};
ghost use Rattle.hook_lists.specs.Steps.{IsRoomier};
ghost use Rattle.filter_lists.specs.OfAdding.Arrivals.{IsEmptyRoom};
ghost use Rattle.filter_lists.specs.OfAdding.Seats.{SeatTold};

use crate::adding::arrival::Seat;
use filter_index::Filters;
use filter_tables::{FilterTables, MaskLists};
use flow_fields::Key;
use hook_lists::Kept;
use std::alloc::Global;
use tc_base::{Hook, NoMemory};

/// The seat for a filter of that mask in the table at that place, or in a new table.
pub(crate) fn seat_for(
    kept: &mut Kept,
    hook: Hook,
    place: Option<usize>,
    mask: &Key<14>,
) -> Result<Seat, NoMemory>
    requires { IfSome place (λ table. table < length (tables_on hook (both_of kept.old))) }
    ensures roomier { IsRoomier kept.old kept.new }
    ensures actions { kept.new.actions ≡ kept.old.actions }
    ensures seat { IfOk result (λ seat. SeatTold (room_on hook kept.new) place mask.now.words seat) }
{
    let alloc = kept.alloc;
    match hook {
        Hook::Ingress => seat_in(alloc, &mut kept.ingress, place, mask),
        Hook::Egress => seat_in(alloc, &mut kept.egress, place, mask),
    }
}

fn seat_in(
    alloc: Global,
    tables: &mut FilterTables,
    place: Option<usize>,
    mask: &Key<14>,
) -> Result<Seat, NoMemory>
    requires { IfSome place (λ table. table < length tables.old.tables) }
    ensures tables { tables.new.tables ≡ tables.old.tables }
    ensures seat { IfOk result (λ seat. SeatTold tables.new place mask.now.words seat) }
{
    match place {
        Some(table) => seat_in_table(alloc, tables, table, mask),
        None => seat_in_new_table(alloc, tables),
    }
}

fn seat_in_table(
    alloc: Global,
    tables: &mut FilterTables,
    table: usize,
    mask: &Key<14>,
) -> Result<Seat, NoMemory>
    requires { table < length tables.old.tables }
    ensures tables { tables.new.tables ≡ tables.old.tables }
    ensures seat { IfOk result (λ seat. SeatTold tables.new (Some table) mask.now.words seat) }
{
    match find_mask(tables, table, mask) {
        Some(mask) => {
            tables.reserve_filter(table, mask)?;
            Ok(Seat::InMask { table, mask })
        }
        None => {
            tables.reserve_mask(table)?;
            Ok(Seat::NewMask {
                table,
                filters: room_for_one(alloc)?,
            })
        }
    }
}

// The place of the mask in the table.
fn find_mask(tables: &FilterTables, table: usize, mask: &Key<14>) -> Option<usize>
    requires { table < length tables.now.tables }
    ensures { (t : PlainTable) → item_at tables.now.tables table ≡ Some t
        → result ≡ place_where (has_words mask.now.words) t.masks }
{
    tables.as_slice()[table].masks.find_mask(mask)
}

fn seat_in_new_table(alloc: Global, tables: &mut FilterTables) -> Result<Seat, NoMemory>
    ensures tables { tables.new.tables ≡ tables.old.tables }
    ensures seat { IfOk result (λ seat. (words : List ℕ) → SeatTold tables.new None words seat) }
{
    tables.reserve()?;
    let mut masks = MaskLists::new(alloc);
    masks.reserve()?;
    Ok(Seat::NewTable {
        masks,
        filters: room_for_one(alloc)?,
    })
}

/// No filters, and room for one.
///
/// `NoMemory`: memory was refused.
pub fn room_for_one(alloc: Global) -> Result<Filters, NoMemory>
    ensures { IfOk result (λ room. IsEmptyRoom room) }
{
    let mut filters = Filters::new(alloc);
    filters.reserve()?;
    Ok(filters)
}
