//! The job of a workload.
ghost use Rattle.std.specs.Prelude.{◌≡◌, IfOk};
ghost use Rattle.tool_run.specs.Workloads.{batch_round, capture_round, made_job};

use job_lines::{BatchName, BatchNames, CaptureName, Job, Round, Rounds};
use std::alloc::{AllocError, Global};
use tc_base::{Bytes, Hook, NoMemory};

fn bytes_of(alloc: Global, text: &str) -> Result<Bytes, AllocError>
    ensures { IfOk result (λ bytes. bytes ≡ text.now) }
{
    Ok(Bytes::from_vec(text.as_bytes().to_vec(alloc)?))
}

// The round in which the one control applies the batch.
fn batch_round(alloc: Global) -> Result<Round, NoMemory>
    ensures { IfOk result (λ round. round ≡ batch_round) }
{
    let batch = BatchName {
        control: 1,
        name: bytes_of(alloc, ".tc")?,
        force: false,
    };
    Ok(Round {
        batches: BatchNames::from_vec(Vec::from_array(alloc, [batch])?),
        capture: None,
    })
}

// The round in which the packets come.
fn capture_round(alloc: Global) -> Result<Round, NoMemory>
    ensures { IfOk result (λ round. round ≡ capture_round) }
{
    let capture = CaptureName {
        hook: Hook::Ingress,
        name: bytes_of(alloc, ".pcap")?,
        out: bytes_of(alloc, ".out.pcap")?,
    };
    Ok(Round {
        batches: BatchNames::from_vec(Vec::new(alloc)),
        capture: Some(capture),
    })
}

/// The job of each workload, under names that no front stands before.
pub(crate) fn made_job(alloc: Global) -> Result<Job, NoMemory>
    ensures { IfOk result (λ job. job ≡ made_job) }
{
    let rounds = [batch_round(alloc)?, capture_round(alloc)?];
    Ok(Job {
        workers: 4,
        controls: 1,
        rounds: Rounds::from_vec(Vec::from_array(alloc, rounds)?),
    })
}
