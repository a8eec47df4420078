ghost use Rattle.std.specs.Prelude.{◌≡◌};
ghost use Rattle.tool_words.specs.declared.status.Status.TheVariants as statuses;
ghost use Rattle.tc_base.specs.Memory.{no_memory};

use crate::reason::Reason;
use std::alloc::{AllocError, AllocFailed};
use tc_base::{Bytes, NoMemory, Put};

/// What is wrong at a place of an input file.
#[derive(Clone, Copy, Debug, PartialEq, Eq)]
pub enum InputKind {
    /// A capture's first four bytes are none of the four magic words.
    BadMagic,
    /// A capture's version isn't 2.4.
    BadVersion,
    /// A capture's link type isn't 1, Ethernet.
    NotEthernet,
    /// A capture ends within its 24 bytes of header.
    CutHeader,
    /// A capture ends within a packet.
    CutRecord,
    /// A packet claims `length` bytes, more than 262,144.
    TooLong { length: u32 },
    /// A job's line is none that a job may have there.
    JobSyntax,
    /// A job has more than 1,024 rounds.
    TooManyRounds,
    /// The batches have more than 262,144 command lines.
    TooManyLines,
    /// The captures have more than 1,048,576 packets.
    TooManyPackets,
}

/// Where a file first breaks its form, and how.
#[derive(Clone, Copy, Debug, PartialEq, Eq)]
pub struct Break {
    /// A byte's offset in a capture, a line's number elsewhere.
    pub place: u64,
    pub kind: InputKind,
}

/// How a run of the program ended. Names are those of the command line.
#[derive(Drop)]
pub enum Status {
    /// Every line was accepted and all input was read to its end.
    Done,
    /// `count` lines, above 0, were refused; all else was done.
    LinesRefused {
        count: u32,
    },
    /// The words are no command.
    Usage,
    /// The file `name` breaks its form, first at `place`: a byte's offset in a capture, a line's number
    /// elsewhere.
    BadInput {
        name: Bytes,
        place: u64,
        kind: InputKind,
    },
    /// The file `name` could not be read.
    ReadFault {
        name: Bytes,
    },
    /// An output capture, a file of `gen` or the text could not be written.
    WriteFault,
    /// Memory ran out.
    NoMemory(NoMemory),
    /// The report is not that of a lawful run, first at `line`, and why.
    NotLawful {
        line: u64,
        reason: Reason,
    },
    /// Every line was accepted, and of `count` packets, above 0, an end between the state before a change and
    /// the state behind it is told or left open; all was told.
    NotHitless {
        count: u32,
    },
}

impl Status {
    ghost use Rattle.std.specs.Prelude.{◌≡◌};
    ghost use Rattle.tool_words.specs.Ends.{exit_of};

    /// The number with which the program ends.
    pub fn exit_number(&self) -> u8
        ensures { result ≡ exit_of self.now }
    {
        match self {
            Status::Done => 0,
            Status::LinesRefused { .. } => 1,
            Status::Usage => 2,
            Status::BadInput { .. } => 3,
            Status::ReadFault { .. } => 4,
            Status::WriteFault => 5,
            Status::NoMemory(_) => 6,
            Status::NotLawful { .. } => 7,
            Status::NotHitless { .. } => 8,
        }
    }
}

impl From<AllocError> for Status {
    ghost from_gives = { λ _ e. e ≡ statuses.NoMemory no_memory };

    fn from(refused: AllocError) -> Self {
        Status::NoMemory(NoMemory::from(refused))
    }
}

impl<T: Drop> From<AllocFailed<T>> for Status {
    ghost from_gives = { λ _ e. e ≡ statuses.NoMemory no_memory };

    fn from(refused: AllocFailed<T>) -> Self {
        Status::NoMemory(NoMemory::from(refused))
    }
}

impl From<NoMemory> for Status {
    ghost from_gives = { λ memory e. e ≡ statuses.NoMemory memory };

    fn from(memory: NoMemory) -> Self {
        Status::NoMemory(memory)
    }
}

impl From<Put> for Status {
    ghost use Rattle.tool_words.specs.Ends.{status_of};

    ghost from_gives = { λ p s. s ≡ status_of p };

    fn from(put: Put) -> Self {
        match put {
            Put::Failed => Status::WriteFault,
            Put::NoMemory(memory) => Status::NoMemory(memory),
        }
    }
}
