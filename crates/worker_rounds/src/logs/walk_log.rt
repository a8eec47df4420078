//! What a worker keeps of its walks in a round.

use run_report::{OutcomeList, OutcomeView};
use std::alloc::Global;
use std::marker::Model;
use tc_base::NoMemory;

/// Rows in the order of the walks: each the number of a packet, from 0, and what its walk came to.
#[derive(Drop, Debug)]
pub struct WalkLog {
    numbers: Vec<u32>,
    outcomes: OutcomeList,
}

impl Model for WalkLog {
    ghost use Rattle.std.specs.Prelude.{◌≡◌, List, length};
    ghost use Rattle.lawful_runs.specs.OfLogs.Logs.{LogRow};
    ghost use Rattle.worker_rounds.specs.OfLogs.Rows.{rows_in};

    ghost Value = { List LogRow };

    ghost view = { λ l. rows_in l.numbers.items l.outcomes };

    ghost invariant = { λ l. length l.numbers.items ≡ length l.outcomes };
}

impl WalkLog {
    ghost use Rattle.std.specs.Prelude.{◌≡◌, ◌<◌, ◌++◌, ◌∷◌, [], length, slice_get, Some, OnOk, OnErr};
    ghost use Rattle.run_report.specs.Kept.{outcome_seen};
    ghost use Rattle.worker_rounds.specs.OfLogs.Rows.{row_of, numbers_of, outcomes_of};

    /// No rows yet. Takes no memory.
    pub fn new(alloc: Global) -> WalkLog
        ensures { result ≡ [] }
    {
        WalkLog {
            numbers: Vec::new(alloc),
            outcomes: OutcomeList::new(alloc),
        }
    }

    /// Puts a row behind those that are there. The outcome's lists are copied.
    ///
    /// `NoMemory`: memory was refused, and the rows are as they were.
    pub fn push(&mut self, number: u32, outcome: &OutcomeView<'_>) -> Result<(), NoMemory>
        ensures put { OnOk result (self.new ≡ self.old ++ row_of number (outcome_seen outcome.now) ∷ []) }
        ensures kept { OnErr result (self.new ≡ self.old) }
    {
        self.numbers.reserve(1)?;
        self.outcomes.push(outcome)?;
        self.numbers.push_reserved(number);
        Ok(())
    }

    /// How many rows there are.
    pub fn len(&self) -> usize
        ensures { result ≡ length self.now }
    {
        self.numbers.len()
    }

    /// The number and the outcome of the row at a place, from 0.
    pub fn at(&self, place: usize) -> (u32, OutcomeView<'_>)
        requires { place < length self.now }
        ensures { slice_get self.now place ≡ Some (row_of result.0 (outcome_seen result.1)) }
    {
        (self.numbers[place], self.outcomes.at(place))
    }

    // The numbers of the rows, in order.
    pub(crate) fn numbers(&self) -> &[u32]
        ensures { result.now ≡ numbers_of self.now }
    {
        &self.numbers
    }

    // The outcomes of the rows, in order, in the list that they stand in.
    pub(crate) fn into_outcomes(self) -> OutcomeList
        ensures { result ≡ outcomes_of self }
    {
        let WalkLog {
            numbers: _,
            outcomes,
        } = self;
        outcomes
    }
}
