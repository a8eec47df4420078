//! A workload in memory.
ghost use Rattle.gen_files.specs.declared.limits.TheConstants.{GEN_MAX};
ghost use Rattle.std.specs.Prelude.{◌≡◌, ◌≤◌, IfOk};
ghost use Rattle.lawful_runs.specs.Given.{IsLoaded};
ghost use Rattle.tool_run.specs.Workloads.{workload_of};

use crate::generated::capture_of;
use crate::workloads::job::made_job;
use gen_files::gen_batch;
use lawful_runs::{Captures, LoadedJob};
use std::alloc::Global;
use tc_base::{Bytes, Files, NoMemory};

/// The job that walks a capture through the batch of so many filters, with the batch, and with the capture,
/// which meets each filter twelve times. It can be run as it is.
///
/// `NoMemory`: memory was refused.
pub fn load_workload(alloc: Global, filters: u32) -> Result<LoadedJob, NoMemory>
    requires some { 1 ≤ filters }
    requires few { filters ≤ GEN_MAX }
    ensures is { IfOk result (λ loaded. loaded ≡ workload_of filters) }
    ensures loaded { IfOk result IsLoaded }
{
    let batch = Bytes::from_vec(gen_batch(alloc, filters)?);
    let batches = Files::from_vec(Vec::from_array(alloc, [batch])?);
    let capture = capture_of(alloc, filters)?;
    let captures = Captures::from_vec(Vec::from_array(alloc, [capture])?);
    Ok(LoadedJob {
        job: made_job(alloc)?,
        batches,
        captures,
    })
}
