//! What happened in a run.

use crate::counters::CounterLines;
use crate::rounds::RoundRecords;

/// What happened in a run, and what was counted of its actions.
#[derive(Drop, Debug)]
pub struct RunRecord {
    pub rounds: RoundRecords,
    pub counters: CounterLines,
}
