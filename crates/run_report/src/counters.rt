//! How often the actions of a run ran.
ghost use Rattle.std.specs.Prelude.{◌≡◌};

use act_kinds::Kind;
use std::marker::Model;

/// What was counted of one action.
#[derive(Clone, Copy, Debug, PartialEq, Eq)]
pub struct CounterLine {
    /// The action's serial, counted from 1 over the run.
    pub serial: u32,
    pub kind: Kind,
    pub index: u32,
    /// How often the action ran.
    pub packets: u64,
    /// The lengths of the frames on which it ran, together.
    pub bytes: u64,
}

/// The counters of a run, one for each action that was ever made, by rising serial.
#[derive(Drop, Debug)]
pub struct CounterLines {
    items: Vec<CounterLine>,
}

impl Model for CounterLines {
    ghost use Rattle.std.specs.Prelude.{List};
    ghost use Rattle.run_report.specs.declared.counters.CounterLine.{CounterLine};

    ghost Value = { List CounterLine };

    ghost view = { λ c. c.items.items };
}

impl CounterLines {
    /// The list of these items.
    pub fn from_vec(items: Vec<CounterLine>) -> Self
        ensures { result ≡ items.items }
    {
        CounterLines { items }
    }

    /// The items, in order.
    pub fn as_slice(&self) -> &[CounterLine]
        ensures { result.now ≡ self.now }
    {
        &self.items
    }
}
