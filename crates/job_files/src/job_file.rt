//! The file that says a job.
ghost use Rattle.std.specs.Prelude.{◌≡◌, [], ◌∷◌, ◌≤◌, IfOk, IfErr, OnOk};
ghost use Rattle.tc_base.specs.Outside.{AsksFor};
ghost use Rattle.job_files.specs.Holdings.{HasJobFile};
ghost use Rattle.job_files.specs.Faults.{kind_of, JobFileFails};

use crate::inputs::{bad_input, copied_name, load};
use job_lines::{Job, JobFault, JobKind, read_job};
use std::alloc::Global;
use tc_base::Shelf;
use tool_words::{InputKind, Status};

fn input_kind(kind: JobKind) -> InputKind
    ensures { result ≡ kind_of kind }
{
    match kind {
        JobKind::JobSyntax => InputKind::JobSyntax,
        JobKind::TooManyRounds => InputKind::TooManyRounds,
    }
}

/// The job that the file under the name says.
pub(crate) fn load_job_file<S: Shelf>(
    alloc: Global,
    shelf: &mut S,
    name: &str,
) -> Result<Job, Status>
    ensures job { IfOk result (HasJobFile (S.held shelf.old) name.now) }
    ensures cause { IfErr result (JobFileFails S.held S.read_faults S.failed_name shelf.old shelf.new
        name.now) }
    ensures held { S.held shelf.new ≡ S.held shelf.old }
    ensures later { S.read_faults shelf.old ≤ S.read_faults shelf.new }
    ensures failed_name { OnOk result (S.failed_name shelf.new ≡ S.failed_name shelf.old) }
    ensures write_faults { S.write_faults shelf.new ≡ S.write_faults shelf.old }
    ensures fetched { AsksFor (S.fetched shelf.old) (S.fetched shelf.new) (name.now ∷ []) result }
    ensures put_names { S.put_names shelf.new ≡ S.put_names shelf.old }
{
    let bytes = load(alloc, shelf, name)?;
    match read_job(alloc, &bytes) {
        Ok(job) => Ok(job),
        Err(JobFault::NoMemory(memory)) => Err(Status::NoMemory(memory)),
        Err(JobFault::Form { line, kind }) => {
            let name = copied_name(alloc, name)?;
            Err(bad_input(name, line, input_kind(kind)))
        }
    }
}
