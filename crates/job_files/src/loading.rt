//! Loading a job with its files.
ghost use Rattle.std.specs.Prelude.{◌≡◌, [], ◌⊎◌, ◌≤◌, Result, IfOk, IfErr, OnOk, IsSome};
ghost use Rattle.tc_base.specs.Outside.{Appended};
ghost use Rattle.lawful_runs.specs.declared.loaded.LoadedJob.{LoadedJob};
ghost use Rattle.lawful_runs.specs.Given.{IsLoaded};
ghost use Rattle.tool_words.specs.declared.status.Status.{Status};
ghost use Rattle.job_files.specs.Holdings.{HasJob};
ghost use Rattle.job_files.specs.Faults.{JobFails};
ghost use Rattle.job_files.specs.Inputs.{FetchesInput, input_names};
ghost use Rattle.job_files.specs.Due.{CallsFor, FailedOutside};

use crate::files::LoadedFiles;
use crate::job_file::load_job_file;
use lawful_runs::LoadedJob;
use std::alloc::Global;
use tc_base::Shelf;
use tool_words::Status;

/// The job under a name, with what the files that it names hold.
///
/// The job file is fetched and read first, then each batch and capture in the order in which the job names
/// them; the first fault ends the loading. `BadInput` tells the file, and where and how it first breaks its
/// form or passes a limit of the whole job; `ReadFault` a file that could not be read. Where the shelf tells
/// what it holds, the answer is the one that is due, unless a read failed or memory ran out.
pub fn load_job<S: Shelf>(alloc: Global, shelf: &mut S, name: &str) -> Result<LoadedJob, Status>
    ensures done { IfOk result (HasJob (S.held shelf.old) name.now) }
    ensures loaded { IfOk result IsLoaded }
    ensures cause { IfErr result (JobFails S.held S.read_faults S.failed_name shelf.old shelf.new name.now) }
    ensures due { IsSome (S.held shelf.old) → (due : Result LoadedJob Status)
        → CallsFor (S.held shelf.old) name.now due
        → (result ≡ due) ⊎ FailedOutside S.read_faults shelf.old shelf.new result }
    ensures held { S.held shelf.new ≡ S.held shelf.old }
    ensures later { S.read_faults shelf.old ≤ S.read_faults shelf.new }
    ensures failed_name { OnOk result (S.failed_name shelf.new ≡ S.failed_name shelf.old) }
    ensures write_faults { S.write_faults shelf.new ≡ S.write_faults shelf.old }
    ensures fetched { IfOk result (λ loaded. Appended (S.fetched shelf.old) (S.fetched shelf.new)
        (input_names name.now loaded.job)) }
    ensures fetched_up_to { FetchesInput (S.held shelf.old) (S.fetched shelf.old) (S.fetched shelf.new) name.now
        [] }
    ensures put_names { S.put_names shelf.new ≡ S.put_names shelf.old }
{
    let job = load_job_file(alloc, shelf, name)?;
    let mut files = LoadedFiles::new(alloc);
    files.add_rounds(alloc, shelf, job.rounds.as_slice())?;
    Ok(files.of(job))
}
