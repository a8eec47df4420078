//! The report that is judged: its files, and the line that says what it is.
ghost use Rattle.std.specs.Prelude.{◌≡◌, ◌≤◌, IfOk, IfErr, OnOk, IsErrOf, [], ◌∷◌};
ghost use Rattle.tc_base.specs.Outside.{Rose, Appended, AppendsUpTo};
ghost use Rattle.lawful_runs.specs.Given.{IsLoaded};
ghost use Rattle.job_files.specs.Holdings.{HasJob};
ghost use Rattle.job_files.specs.Inputs.{FetchesInput};
ghost use Rattle.job_files.specs.OfInputs.Holdings.{Holds};
ghost use Rattle.tool_run.specs.Rechecks.{JudgingFails, check_text};

use crate::text::write_text;
use job_files::inputs::load;
use job_files::load_job;
use lawful_runs::LoadedJob;
use report_trace::Check;
use std::alloc::{AllocError, Global};
use tc_base::{Put, Shelf, Sink};
use tool_words::Status;
use walk_texts::{push_count, push_text};

/// A job with its files, and the bytes of a report.
#[derive(Drop)]
pub struct ReportFiles {
    pub job: LoadedJob,
    pub report: Vec<u8>,
}

/// Loads the job under the one name and the report under the other, in that order.
pub fn load_files<S: Shelf>(
    alloc: Global,
    job: &str,
    report: &str,
    shelf: &mut S,
) -> Result<ReportFiles, Status>
    ensures job { IfOk result (λ files. HasJob (S.held shelf.old) job.now files.job) }
    ensures report { IfOk result (λ files. Holds (S.held shelf.old) report.now files.report.items) }
    ensures loaded { IfOk result (λ files. IsLoaded files.job) }
    ensures cause { IfErr result
        (JudgingFails S.held S.read_faults S.failed_name shelf.old shelf.new job.now report.now) }
    ensures held { S.held shelf.new ≡ S.held shelf.old }
    ensures write_faults { S.write_faults shelf.new ≡ S.write_faults shelf.old }
    ensures fetched { FetchesInput (S.held shelf.old) (S.fetched shelf.old) (S.fetched shelf.new) job.now
        (report.now ∷ []) }
    ensures put_names { S.put_names shelf.new ≡ S.put_names shelf.old }
{
    let job = load_job(alloc, shelf, job)?;
    let report = load(alloc, shelf, report)?;
    Ok(ReportFiles { job, report })
}

// The line that says what a report is.
fn answer(alloc: Global, check: Check) -> Result<Vec<u8>, AllocError>
    ensures { IfOk result (λ text. text.items ≡ check_text check) }
{
    let mut text = Vec::new(alloc);
    match check {
        Check::Lawful => push_text(&mut text, "lawful\n")?,
        Check::Unlawful { line, .. } => {
            push_count(&mut text, "unlawful ", line)?;
            push_text(&mut text, "\n")?;
        }
    }
    Ok(text)
}

/// Writes the line that says what a report is.
pub fn write_check<O: Sink>(alloc: Global, check: Check, out: &mut O) -> Result<(), Put>
    ensures all { OnOk result (Appended (O.written out.old) (O.written out.new) (check_text check)) }
    ensures up_to { AppendsUpTo (O.written out.old) (O.written out.new) (check_text check) }
    ensures later { O.faults out.old ≤ O.faults out.new }
    ensures cause { IsErrOf result Put.Failed → Rose (O.faults out.old) (O.faults out.new) }
{
    let text = answer(alloc, check)?;
    write_text(&text, out)
}
