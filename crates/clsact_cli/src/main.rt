//! Rehearses `tc` filter batches on captures: the program.
//!
//! `words` takes the words from the process. Words that ask for a job go to `tool` of `rehearsal`, which runs
//! it on threads; all others to `obey`, by a function that has no `Wait` and so returns always. (That is
//! `tool_run`'s, but `rehearsal` gives it on, so that one crate stands below this and not both.) `main` puts
//! the process around it: real files, standard output, the text of a status on standard error, the exit number.
//!
//! One thread calls all of this. `rehearsal` alone starts others, for `run` and `gen`, and none is left when
//! it returns.
//!
//! Not promised: that memory suffices, that a run ends, and what a real file or terminal holds.
#![tactic(auto)]

ghost use Rattle.std.specs.Prelude.{◌≡◌, ◌↔◌, false, IfOk, IfErr};
ghost use Rattle.std.specs.Process.{exit_status};
ghost use Rattle.tool_words.specs.declared.status.Status.TheVariants as statuses;
ghost use Rattle.tool_words.specs.Command.{texts, request_of, asks_for_job};
ghost use Rattle.tool_words.specs.Ends.{exit_of, status_of};

mod words;

use rehearsal::{obey, tool};
use std::process::ExitCode;
use std::rt::Files;
use std::sync::Wait;
use std::thread::Threads;
use tc_base::{FileShelf, OpenGate, Put, StdSink};
use tool_words::{Command, Status, command_of};
use words::{OwnWords, words};

// Whether the words ask for a job, which is run on threads.
fn is_for_job(words: &[String]) -> bool
    ensures { result ≡ asks_for_job (request_of (texts words.now)) }
{
    match command_of(words) {
        Some(Command::Run { .. } | Command::Gen { .. }) => true,
        Some(
            Command::Walk { .. }
            | Command::Show { .. }
            | Command::Recheck { .. }
            | Command::Trace { .. }
            | Command::TraceReport { .. }
            | Command::Foresee { .. },
        )
        | None => false,
    }
}

// How a run ends whose buffered lines were then flushed: that they were not taken is the write fault.
fn after_flush(status: Status, flushed: Result<(), Put>) -> Status
    ensures taken { IfOk flushed (λ _. result ≡ status) }
    ensures fault { IfErr flushed (λ fault. result ≡ status_of fault) }
{
    match flushed {
        Ok(()) => status,
        Err(fault) => Status::from(fault),
    }
}

// Does what the words say that ask for no job. It waits for nobody.
fn serve<R: Files + Print + AllocGlobal>(rt: &R, words: &[String]) -> Status
    requires { asks_for_job (request_of (texts words.now)) ≡ false }
{
    let mut out = match StdSink::new(rt, rt.alloc()) {
        Ok(out) => out,
        Err(memory) => return Status::from(memory),
    };
    let status = obey(rt.alloc(), words, &mut FileShelf::new(rt), &mut out);
    after_flush(status, out.flush())
}

// Does what the words say, on threads.
fn serve_job<R: Files + Print + AllocGlobal + Threads + Wait + Sync>(
    rt: &R,
    words: &[String],
) -> Status {
    let mut out = match StdSink::new(rt, rt.alloc()) {
        Ok(out) => out,
        Err(memory) => return Status::from(memory),
    };
    let mut shelf = FileShelf::new(rt);
    let status = tool(rt, rt.alloc(), words, &mut shelf, &mut out, &OpenGate);
    after_flush(status, out.flush())
}

// Only that all was done needs no text.
fn has_text(status: &Status) -> bool
    ensures { (result ≡ false) ↔ (status.now ≡ statuses.Done) }
{
    !matches!(status, Status::Done)
}

fn exit_code(status: &Status) -> ExitCode
    ensures { exit_status result ≡ exit_of status.now }
{
    ExitCode::from(status.exit_number())
}

fn main(rt: HostRuntime) -> ExitCode {
    let status = match words(rt.alloc(), &OwnWords { rt: &rt }) {
        Ok(words) if is_for_job(&words) => serve_job(&rt, &words),
        Ok(words) => serve(&rt, &words),
        Err(status) => status,
    };
    if has_text(&status) {
        // Where standard error is closed, the exit number still tells.
        let _ = rt.eprintln(&status);
    }
    exit_code(&status)
}
