//! A filter that is to come.

use filter_index::{Filter, Filters};
use filter_tables::MaskLists;
use flow_fields::Key;
use tc_base::{Hook, Proto};

/// A filter more, with all that it stands under.
#[derive(Drop)]
pub struct Arrival {
    pub hook: Hook,
    pub chain: u32,
    pub pref: u32,
    pub protocol: Proto,
    /// The serial of its table, which may be a new one.
    pub table_serial: u32,
    /// The serial of its mask, which may be a new one.
    pub mask_serial: u32,
    pub mask: Key<14>,
    pub filter: Filter,
}

/// Where a filter is to go.
#[derive(Drop)]
pub enum Seat {
    /// Behind the filters of the mask at that place of the table at that place.
    InMask { table: usize, mask: usize },
    /// Into a new mask of the table at that place, with the room for its filters.
    NewMask { table: usize, filters: Filters },
    /// Into a new table, with the room for its masks and filters.
    NewTable { masks: MaskLists, filters: Filters },
}
