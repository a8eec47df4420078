//! Why a report isn't lawful.
ghost use Rattle.std.specs.Prelude.{◌≡◌, Some};
ghost use Rattle.tool_words.specs.Reasons.{words_of};

use std::fmt::{self, Formatter};

/// Why no lawful report goes on with a line.
#[derive(Clone, Copy, Debug, PartialEq, Eq)]
pub enum Reason {
    /// The report stops before its end.
    Cut,
    /// The first line isn't a report's title.
    Title,
    /// The line that begins or ends a round was due.
    Round,
    /// A control has a command left, and the line isn't an event's of one that has.
    Event,
    /// The command that the line names came to something else.
    Result,
    /// The next packet was due, and the line isn't that packet's.
    Packet,
    /// The job has no worker of that number.
    Worker,
    /// The first point is below the round's, or below one that the worker saw.
    Floor,
    /// A point is below the walk's first.
    Early,
    /// A point is past the journal.
    Late,
    /// A mask that the walk asks for isn't there at its point.
    Mask,
    /// An action that the walk asks for isn't there at its point.
    Action,
    /// The points of one mask or one action fall.
    Falling,
    /// The walk is over before the last point.
    TooMany,
    /// The walk isn't over at the last point, or there is none.
    TooFew,
    /// The walk at these points has another verdict.
    Verdict,
    /// The walk at these points leaves another length or other metadata.
    Frame,
    /// Another line of an action's counters was due.
    Counter,
    /// Another summary was due.
    Summary,
    /// The line `end` was due.
    End,
    /// Lines stand behind the end.
    Behind,
}

impl Reason {
    // The reason in words.
    fn words(self) -> &'static str
        ensures { result.now ≡ words_of self }
    {
        match self {
            Reason::Cut => "the end is missing",
            Reason::Title => "not a report's title",
            Reason::Round => "another line of a round is due",
            Reason::Event => "the event of a command is due",
            Reason::Result => "another result of its command",
            Reason::Packet => "the next packet is due",
            Reason::Worker => "the worker's number",
            Reason::Floor => "a point below the floor",
            Reason::Early => "a point below the walk's first",
            Reason::Late => "a point past the journal",
            Reason::Mask => "a mask that had left",
            Reason::Action => "an action that isn't there",
            Reason::Falling => "points of one mask or action fall",
            Reason::TooMany => "too many points",
            Reason::TooFew => "too few points",
            Reason::Verdict => "another verdict",
            Reason::Frame => "another length or metadata",
            Reason::Counter => "another counter",
            Reason::Summary => "another summary",
            Reason::End => "the last line is due",
            Reason::Behind => "a line behind the end",
        }
    }
}

/// The reason in words, as the line for standard error says it.
impl fmt::Display for Reason {
    ghost output = { λ reason. Some (words_of reason) };

    fn fmt<W: fmt::Write>(&self, f: &mut Formatter<W>) -> fmt::Result {
        f.write_str(self.words())
    }
}
