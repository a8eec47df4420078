//! What happened in the rounds of a run.
ghost use Rattle.std.specs.Prelude.{◌≡◌};

use crate::events::Events;
use crate::outcomes::Outcomes;
use std::marker::Model;

/// What happened in a round.
#[derive(Drop, Debug)]
pub struct RoundRecord {
    pub events: Events,
    pub outcomes: Outcomes,
}

/// The rounds of a run, in order.
#[derive(Drop, Debug)]
pub struct RoundRecords {
    items: Vec<RoundRecord>,
}

impl Model for RoundRecords {
    ghost use Rattle.std.specs.Prelude.{List};
    ghost use Rattle.run_report.specs.declared.rounds.RoundRecord.{RoundRecord};

    ghost Value = { List RoundRecord };

    ghost view = { λ r. r.items.items };
}

impl RoundRecords {
    /// The list of these items.
    pub fn from_vec(items: Vec<RoundRecord>) -> Self
        ensures { result ≡ items.items }
    {
        RoundRecords { items }
    }

    /// The items, in order.
    pub fn as_slice(&self) -> &[RoundRecord]
        ensures { result.now ≡ self.now }
    {
        &self.items
    }
}
