//! An edit that adds a filter, looked at and ready.

use crate::adding::arrival::{Arrival, Seat};
use action_plan::PlannedActions;
use tc_base::Numbers;

/// What is to be done to add a filter. Its memory is taken already.
#[derive(Drop)]
pub struct Addition {
    pub arrival: Arrival,
    pub seat: Seat,
    pub actions: PlannedActions,
    /// The serials of the actions, for the answer.
    pub serials: Numbers,
}
