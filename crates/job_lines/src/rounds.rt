//! Lists of a job, which contracts see as lists. Each is made from a `Vec`, which takes no memory.
ghost use Rattle.std.specs.Prelude.{◌≡◌};

use crate::job::{BatchName, Round};
use std::marker::Model;

/// Batches of a round.
#[derive(Drop, Debug)]
pub struct BatchNames {
    items: Vec<BatchName>,
}

impl Model for BatchNames {
    ghost use Rattle.std.specs.Prelude.{List};
    ghost use Rattle.job_lines.specs.declared.job.BatchName.{BatchName};

    ghost Value = { List BatchName };

    ghost view = { λ b. b.items.items };
}

impl BatchNames {
    /// The list of these items.
    pub fn from_vec(items: Vec<BatchName>) -> Self
        ensures { result ≡ items.items }
    {
        BatchNames { items }
    }

    /// The items, in order.
    pub fn as_slice(&self) -> &[BatchName]
        ensures { result.now ≡ self.now }
    {
        &self.items
    }
}

/// Rounds of a job.
#[derive(Drop, Debug)]
pub struct Rounds {
    items: Vec<Round>,
}

impl Model for Rounds {
    ghost use Rattle.std.specs.Prelude.{List};
    ghost use Rattle.job_lines.specs.declared.job.Round.{Round};

    ghost Value = { List Round };

    ghost view = { λ r. r.items.items };
}

impl Rounds {
    /// The list of these items.
    pub fn from_vec(items: Vec<Round>) -> Self
        ensures { result ≡ items.items }
    {
        Rounds { items }
    }

    /// The items, in order.
    pub fn as_slice(&self) -> &[Round]
        ensures { result.now ≡ self.now }
    {
        &self.items
    }
}
