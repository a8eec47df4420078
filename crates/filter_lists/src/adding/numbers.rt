//! The numbers that a filter gets with its seat.
ghost use Rattle.std.specs.Prelude.{◌≡◌, ◌+◌, ◌<◌};
ghost use Rattle.filter_tables.specs.Rows.{tables_on};
ghost use Rattle.hook_lists.specs.States.{both_of, AreKept};
ghost use Rattle.filter_lists.specs.OfAdding.Seats.{IsThere, IsTableSerial, IsMaskSerial, IsFreeHandle};

use crate::adding::arrival::Seat;
use hook_lists::{Kept, mask_at, table_at};
use tc_base::Hook;

/// The serial of the seat's table, which may be a new one.
pub(crate) fn table_serial(kept: &Kept, hook: Hook, seat: &Seat) -> u32
    requires there { IsThere (tables_on hook (both_of kept.now)) seat.now }
    requires next { kept.now.tables_made + 1 < 4294967296 }
    ensures { IsTableSerial (tables_on hook (both_of kept.now)) kept.now.tables_made seat.now result }
{
    match seat {
        Seat::InMask { table, .. } => table_at(kept, hook, *table).serial,
        Seat::NewMask { table, .. } => table_at(kept, hook, *table).serial,
        Seat::NewTable { .. } => kept.tables_made + 1,
    }
}

/// The serial of the seat's mask, which may be a new one.
pub(crate) fn mask_serial(kept: &Kept, hook: Hook, seat: &Seat) -> u32
    requires there { IsThere (tables_on hook (both_of kept.now)) seat.now }
    requires next { kept.now.masks_made + 1 < 4294967296 }
    ensures { IsMaskSerial (tables_on hook (both_of kept.now)) kept.now.masks_made seat.now result }
{
    match seat {
        Seat::InMask { table, mask } => mask_at(
            &table_at(kept, hook, *table).masks,
            *mask,
        ).serial(),
        Seat::NewMask { .. } => kept.masks_made + 1,
        Seat::NewTable { .. } => kept.masks_made + 1,
    }
}

/// The lowest handle that the seat's table doesn't use.
pub(crate) fn free_handle(kept: &Kept, hook: Hook, seat: &Seat) -> u32
    requires kept { AreKept kept.now }
    requires there { IsThere (tables_on hook (both_of kept.now)) seat.now }
    ensures { IsFreeHandle (tables_on hook (both_of kept.now)) seat.now result }
{
    match seat {
        Seat::InMask { table, .. } => table_at(kept, hook, *table).masks.free_handle(),
        Seat::NewMask { table, .. } => table_at(kept, hook, *table).masks.free_handle(),
        Seat::NewTable { .. } => 1,
    }
}
