//! What a round leaves.

use crate::round_state::Desk;
use round_terms::MadeAction;
use run_report::RoundRecord;
use tc_base::Ear;
use worker_rounds::Worker;

/// What a round leaves.
#[derive(Drop)]
pub struct RoundEnd<E: Ear> {
    pub desk: Desk,
    pub ear: E,
    /// The workers, in the order in which they went in.
    pub workers: Vec<Worker>,
    /// The round's events and its outcomes.
    pub round: RoundRecord,
    /// The names of all actions that the round made, in order.
    pub made: Vec<MadeAction>,
}
