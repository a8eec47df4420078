//! The workers of a run.
ghost use Rattle.block_codec.specs.declared.places.TheConstants.{READERS};
ghost use Rattle.std.specs.Prelude.{◌≡◌, ◌≤◌, length, map, IfOk};
ghost use Rattle.job_rounds.specs.Hooks.{AreWorkersOf};

use hook_reader::HookReader;
use std::alloc::Global;
use tc_base::NoMemory;
use walk_steps::Walk;
use worker_rounds::Worker;

// A worker with its room for a walk.
fn worker_of(alloc: Global, number: u32, reader: HookReader) -> Result<Worker, NoMemory>
    ensures { IfOk result (λ worker. (worker.number ≡ number) × (worker.reader ≡ reader)) }
{
    let walk = Walk::with_room(alloc)?;
    Ok(Worker {
        number,
        reader,
        walk,
    })
}

/// A worker for each reader, numbered from 1.
pub(crate) fn workers_of(alloc: Global, readers: Vec<HookReader>) -> Result<Vec<Worker>, NoMemory>
    requires { length readers.items ≤ READERS }
    ensures { IfOk result (λ workers. AreWorkersOf readers.items workers.items) }
{
    let mut workers = Vec::with_capacity(alloc, readers.len())?;
    for reader in readers {
        let number = workers.len() as u32 + 1;
        workers.push(worker_of(alloc, number, reader)?)?;
    }
    Ok(workers)
}

/// The readers of the workers.
pub(crate) fn readers_of(alloc: Global, workers: Vec<Worker>) -> Result<Vec<HookReader>, NoMemory>
    ensures { IfOk result (λ readers. readers.items ≡ map (λ worker. worker.reader) workers.items) }
{
    let mut readers = Vec::with_capacity(alloc, workers.len())?;
    for worker in workers {
        let Worker { reader, .. } = worker;
        readers.push(reader)?;
    }
    Ok(readers)
}
