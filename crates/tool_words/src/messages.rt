//! The texts of statuses.
ghost use Rattle.tool_words.specs.Messages.{message_of};

use crate::status::{InputKind, Status};
use std::fmt::{self, Formatter};
use std::str;
use tc_base::Bytes;

const USAGE: &str =
    "usage: walk HOOK BATCH CAPTURE OUT | show BATCH | run JOB | recheck JOB REPORT \
    | trace HOOK BATCH CAPTURE | trace JOB REPORT \
    | foresee HOOK BATCH CHANGE CAPTURE [ force ] | gen N PREFIX";

// A file's name as it was given; one with control characters, which would reach the terminal, is quoted and
// they are escaped. Words of the command line are text, so other bytes do not come.
#[derive(Clone, Copy)]
struct Name<'a>(&'a Bytes);

impl fmt::Display for Name<'_> {
    fn fmt<W: fmt::Write>(&self, f: &mut Formatter<W>) -> fmt::Result {
        let bytes = self.0.as_slice();
        match str::from_utf8(bytes) {
            Ok(name) if !bytes.iter().any(|b| b.is_ascii_control()) => write!(f, "{name}"),
            Ok(name) => write!(f, "{name:?}"),
            Err(_) => write!(f, "{bytes:?}"),
        }
    }
}

impl fmt::Display for InputKind {
    fn fmt<W: fmt::Write>(&self, f: &mut Formatter<W>) -> fmt::Result {
        match self {
            InputKind::TooLong { length } => write!(f, "TooLong {length}"),
            kind => write!(f, "{kind:?}"),
        }
    }
}

/// The line that is written on standard error, without its end, or the two of a report that isn't lawful.
/// `Done` has none.
impl fmt::Display for Status {
    ghost output = { message_of };

    fn fmt<W: fmt::Write>(&self, f: &mut Formatter<W>) -> fmt::Result {
        match self {
            Status::Done => Ok(()),
            Status::LinesRefused { count } => write!(f, "{count} lines refused"),
            Status::Usage => write!(f, "{USAGE}"),
            Status::BadInput { name, place, kind } => {
                write!(f, "bad input {} at {place}: {kind}", Name(name))
            }
            Status::ReadFault { name } => write!(f, "cannot read {}", Name(name)),
            Status::WriteFault => write!(f, "cannot write"),
            Status::NoMemory(_) => write!(f, "no memory"),
            Status::NotLawful { line, reason } => write!(
                f,
                "report not lawful at line {line}\nline {line}: no lawful report goes on so: {reason}"
            ),
            Status::NotHitless { count } => write!(f, "{count} packets not hitless"),
        }
    }
}
