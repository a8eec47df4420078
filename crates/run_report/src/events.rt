//! What the command lines of a round came to.
ghost use Rattle.std.specs.Prelude.{◌≡◌};

use filter_state::{Done, Refusal};
use std::marker::Model;

/// What became of a command line.
#[derive(Drop, Debug)]
pub enum EventKind {
    /// The line's edit was accepted, and did that.
    Accepted(Done),
    /// The line's edit was refused.
    Refused(Refusal),
    /// The line has no meaning.
    Syntax {
        /// The number of the first word that doesn't fit, counted from 1.
        word: u32,
    },
}

/// A command line that was met in a round.
#[derive(Drop, Debug)]
pub struct Event {
    /// The control whose batch has the line, counted from 1.
    pub control: u32,
    /// The line's number in that batch, counted from 1.
    pub line: u64,
    pub kind: EventKind,
}

/// The events of a round, in the order in which they happened.
#[derive(Drop, Debug)]
pub struct Events {
    items: Vec<Event>,
}

impl Model for Events {
    ghost use Rattle.std.specs.Prelude.{List};
    ghost use Rattle.run_report.specs.declared.events.Event.{Event};

    ghost Value = { List Event };

    ghost view = { λ e. e.items.items };
}

impl Events {
    /// The list of these items.
    pub fn from_vec(items: Vec<Event>) -> Self
        ensures { result ≡ items.items }
    {
        Events { items }
    }

    /// The items, in order.
    pub fn as_slice(&self) -> &[Event]
        ensures { result.now ≡ self.now }
    {
        &self.items
    }
}
