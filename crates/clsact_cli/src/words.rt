//! The words of the command line.
ghost use Rattle.std.specs.Prelude.{◌≡◌, ◌⊎◌, IfErr, IfOk, IfSome, string_bytes};
ghost use Rattle.std.specs.Prelude.{IsUtf8};
ghost use Rattle.tool_words.specs.declared.status.Status.TheVariants as statuses;
ghost use Rattle.tc_base.specs.Memory.{no_memory};
ghost use Rattle.tool_words.specs.Command.{texts};
ghost use Rattle.clsact_cli.specs.Arguments.{IsFound, IsFoundIn, AreAll, IsStrange, HasStrange};

use std::alloc::Global;
use std::env::FillError;
use std::rt::Env;
use tool_words::Status;

// How long a word may be at first.
const WORD_ROOM: usize = 4096;

// How long a word may be: Linux gives none of more than 32 pages (execve(2)), of 65,536 bytes at most.
const WORD_MOST: usize = 2_097_152;

/// The words that a process was started with.
pub(crate) trait Arguments {
    ghost use Rattle.std.specs.Prelude.{ℕ, List, Option, IfSome};
    ghost use Rattle.std.specs.Io.{WritesAtMost};
    ghost use Rattle.clsact_cli.specs.Arguments.{Answers};

    // The words, the process's own name first, where it tells them.
    ghost told: { Self → Option (List (List ℕ)) };

    /// Writes the word at a place to the front of the room, and answers how long it is.
    fn arg(&self, place: usize, room: &mut [u8]) -> Result<usize, FillError>
        ensures bound { WritesAtMost result room.new }
        ensures answer { IfSome (told self.now) (λ words. Answers words place room.new result) };
}

/// The words of this process. The system promises nothing of them, so they are not told.
#[derive(Drop)]
pub(crate) struct OwnWords<'a, R: Env> {
    pub rt: &'a R,
}

impl<R: Env> Arguments for OwnWords<'_, R> {
    ghost use Rattle.std.specs.Prelude.{None};

    ghost told = { λ _. None };

    fn arg(&self, place: usize, room: &mut [u8]) -> Result<usize, FillError> {
        self.rt.arg(place, room)
    }
}

// What stands at a place, by so much room.
#[derive(Drop)]
enum Found {
    Word(String),
    // The words have ended.
    NoWord,
    // The word is longer than the room.
    Longer,
}

// What stands at a place, where it may have so many bytes.
fn find<A: Arguments>(
    alloc: Global,
    arguments: &A,
    place: usize,
    room: usize,
) -> Result<Found, Status>
    ensures found { IfOk result (λ found. IfSome (A.told arguments.now) (λ words. IsFoundIn words place room found)) }
    ensures cause { IfErr result (λ status. (status ≡ statuses.NoMemory no_memory)
        ⊎ ((status ≡ statuses.Usage) × IfSome (A.told arguments.now) (λ words. IsStrange words place))) }
{
    let mut bytes = vec![in alloc; 0u8; room]?;
    match arguments.arg(place, &mut bytes) {
        Ok(length) => {
            bytes.truncate(length);
            Ok(Found::Word(text(bytes)?))
        }
        Err(FillError::NotPresent) => Ok(Found::NoWord),
        Err(FillError::TooLong) => Ok(Found::Longer),
    }
}

// The word at a place, or none where the words have ended. One that is longer than any word of Linux is none
// of a command.
fn word_at<A: Arguments>(
    alloc: Global,
    arguments: &A,
    place: usize,
) -> Result<Option<String>, Status>
    ensures found { IfOk result (λ found. IfSome (A.told arguments.now) (λ words. IsFound words place found)) }
    ensures cause { IfErr result (λ status. (status ≡ statuses.NoMemory no_memory)
        ⊎ ((status ≡ statuses.Usage) × IfSome (A.told arguments.now) (λ words. IsStrange words place))) }
{
    let found = match find(alloc, arguments, place, WORD_ROOM)? {
        Found::Longer => find(alloc, arguments, place, WORD_MOST)?,
        found => found,
    };
    match found {
        Found::Word(word) => Ok(Some(word)),
        Found::NoWord => Ok(None),
        Found::Longer => Err(Status::Usage),
    }
}

// Bytes that are no text make the words no command.
fn text(bytes: Vec<u8>) -> Result<String, Status>
    ensures same { IfOk result (λ word. string_bytes word ≡ bytes.items) }
    ensures cause { IfErr result (λ status. status ≡ statuses.Usage) }
    ensures none { IfErr result (λ _. IsUtf8 bytes.items → ⊥) }
{
    match String::from_utf8(bytes) {
        Ok(word) => Ok(word),
        Err(_) => Err(Status::Usage),
    }
}

/// The words behind the program's own name, all of them. That name is never read: where the program lies is no
/// matter of what it is asked for.
///
/// `Usage`: a word isn't text, or is longer than 2,097,152 bytes, where Linux gives at most 2,097,152 with the
/// zero behind it; or there are more words than places. `NoMemory`: memory was refused.
pub(crate) fn words<A: Arguments>(alloc: Global, arguments: &A) -> Result<Vec<String>, Status>
    ensures all { IfOk result (λ words. AreAll (A.told arguments.now) (texts words.items)) }
    ensures cause { IfErr result (λ status. (status ≡ statuses.NoMemory no_memory)
        ⊎ ((status ≡ statuses.Usage) × IfSome (A.told arguments.now) HasStrange)) }
{
    let mut words = Vec::new(alloc);
    for place in 1..usize::MAX {
        match word_at(alloc, arguments, place)? {
            Some(word) => words.push(word)?,
            None => return Ok(words),
        }
    }
    Err(Status::Usage)
}
