//! An edit that replaces a filter, looked at and ready.

use crate::adding::Arrival;
use action_plan::PlannedActions;
use filter_index::Filters;
use tc_base::{Hook, Numbers};

/// Where a filter that is replaced goes.
#[derive(Drop)]
pub enum Change {
    /// It stays in its place, and has other actions.
    Stays { actions: Numbers },
    /// It leaves its place for the end of the mask at that place, which may be its own.
    Moves { to: usize, arrival: Arrival },
    /// It leaves its place for a new mask, with the room for its filters.
    MovesOut { filters: Filters, arrival: Arrival },
}

/// The filter that is to be replaced.
#[derive(Clone, Copy)]
pub struct Old {
    pub hook: Hook,
    pub chain: u32,
    pub pref: u32,
    pub handle: u32,
    /// The place of its table, and of its mask in the table.
    pub table: usize,
    pub mask: usize,
}

/// What is to be done to replace a filter that is there. Its memory is taken already.
#[derive(Drop)]
pub struct Replacement {
    pub old: Old,
    pub change: Change,
    pub actions: PlannedActions,
    /// The serials of the actions, for the answer.
    pub serials: Numbers,
}
