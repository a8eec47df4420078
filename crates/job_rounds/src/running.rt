//! A whole job.
ghost use Rattle.std.specs.Prelude.{◌≡◌, ◌≤◌, ◌++◌, [], length, option_map, All, IfOk};
ghost use Rattle.pin_store.specs.Calls.{IsSeatOf, IsNewReader};
ghost use Rattle.lawful_runs.specs.Given.{IsLoaded, command_count};
ghost use Rattle.lawful_runs.specs.Lawful.{IsRunWith};
ghost use Rattle.job_rounds.specs.OfRoundState.Views.{journal};
ghost use Rattle.job_rounds.specs.OfRoundState.Rounds.{store_name, IsDeskOf};
ghost use Rattle.round_terms.specs.Hearing.{EarView, ear_of};
ghost use Rattle.desk_parts.specs.Desk.{hook_shape};
ghost use Rattle.job_rounds.specs.Hooks.{AreNewHooks, AreHooksOf};
ghost use Rattle.job_rounds.specs.Names.{names_in};
ghost use Rattle.job_rounds.specs.SoFar.{IsSoFar};
ghost use Rattle.job_rounds.specs.Runs.{IsJobEnd};
ghost use Rattle.job_rounds.specs.Visited.{HaveVisited};
ghost use Rattle.shared_hook.specs.Views.{IsUnused};

use crate::counting::counters_of;
use crate::course::{Course, nothing_past};
use crate::hooks::Hooks;
use crate::round_state::Desk;
use crate::rounds::run_rounds;
use crate::workers::{readers_of, workers_of};
use hook_reader::HookReader;
use hook_store_law::HookStore;
use round_terms::LoadedJob;
use run_report::{RoundRecords, RunRecord};
use std::alloc::Global;
use std::sync::Wait;
use std::thread::Threads;
use tc_base::{Ear, Gate, NoEar, NoMemory, NoTender, Tender};

/// What a job leaves of what it was given, and its record.
#[derive(Drop)]
pub(crate) struct JobEnd<E: Ear> {
    pub run: RunRecord,
    pub desk: Desk,
    pub readers: Vec<HookReader>,
    pub ear: E,
}

// The record of a run that is behind its last round.
fn end_of<E: Ear>(
    alloc: Global,
    job: &LoadedJob,
    store: &HookStore,
    course: Course<E>,
) -> Result<JobEnd<E>, NoMemory>
    requires loaded { IsLoaded job.now }
    requires over { (first : EarView) × IsSoFar E.name E.heard E.spare (store_name store.now) job.now first
        (length job.now.job.rounds) course }
    ensures { (first : EarView)
        → IsSoFar E.name E.heard E.spare (store_name store.now) job.now first (length job.now.job.rounds) course
        → IfOk result (IsJobEnd E.name E.heard (store_name store.now) job.now first) }
{
    let _rounds = &job.job.rounds;
    let _words = store;
    let counters = match counters_of(alloc, &course.past.rounds, &course.past.made) {
        Ok(counters) => counters,
        Err(memory) => {
            // Here and below in one call: part by part it is long to prove.
            drop(course);
            return Err(memory);
        }
    };
    let Course {
        desk,
        ear,
        workers,
        past,
        ..
    } = course;
    let readers = match readers_of(alloc, workers) {
        Ok(readers) => readers,
        Err(memory) => {
            drop((desk, ear, past, counters));
            return Err(memory);
        }
    };
    let run = RunRecord {
        rounds: RoundRecords::from_vec(past.rounds),
        counters,
    };
    Ok(JobEnd {
        run,
        desk,
        readers,
        ear,
    })
}

// Runs a job over the store of a hook.
fn run_over<E: Ear, G: Gate, T: Tender, R: Threads + Wait + Sync>(
    rt: &R,
    alloc: Global,
    store: &HookStore,
    job: &LoadedJob,
    desk: Desk,
    readers: Vec<HookReader>,
    gates: &G,
    ear: E,
    tender: &mut T,
) -> Result<JobEnd<E>, NoMemory>
    requires loaded { IsLoaded job.now }
    requires shape { store.now.shape ≡ hook_shape }
    requires desk { IsSeatOf store.now desk.place × (journal desk ≡ []) }
    requires readers { (length readers.items ≡ job.now.job.workers)
        × All (λ reader. IsNewReader store.now reader.place) readers.items
        × All IsUnused readers.items }
    requires spare { command_count job.now.batches ≤ E.spare ear }
    ensures end { IfOk result (IsJobEnd E.name E.heard (store_name store.now) job.now
        (ear_of E.name E.heard E.spare ear)) }
    ensures tender { T.name tender.new ≡ T.name tender.old }
{
    let past = match nothing_past(alloc, job.job.rounds.as_slice().len()) {
        Ok(past) => past,
        Err(memory) => {
            drop((desk, readers, ear));
            return Err(memory);
        }
    };
    let workers = match workers_of(alloc, readers) {
        Ok(workers) => workers,
        Err(memory) => {
            drop((desk, ear, past));
            return Err(memory);
        }
    };
    let course = Course {
        desk,
        ear,
        workers,
        past,
        captures: 0,
    };
    let course = run_rounds(rt, alloc, store, job, course, gates, tender)?;
    end_of(alloc, job, store, course)
}

/// Runs a job over a new hook, with an ear that hears of each edit as soon as it was accepted, and a tender
/// that gets a turn from time to time.
///
/// The run is a lawful one of the job, and the hook's journal is its own: each accepted edit once, in order.
/// The ear has heard of just these edits, where it tells what it heard. The hook that comes back is of the
/// same store, with as many readers of it, all outside: that of each worker, at its place, has made exactly
/// as many visits as the worker's outcomes have points.
///
/// `NoMemory`: memory was refused, here or in a thread. Hook and ear are gone.
pub fn run_job_heard<R: Threads + Wait + Sync, G: Gate, E: Ear, T: Tender>(
    rt: &R,
    alloc: Global,
    hooks: Hooks,
    job: &LoadedJob,
    gates: &G,
    ear: E,
    tender: &mut T,
) -> Result<(RunRecord, Hooks, E), NoMemory>
    requires job { IsLoaded job.now }
    requires hooks { AreNewHooks job.now.job.workers hooks }
    requires spare { command_count job.now.batches ≤ E.spare ear }
    ensures run { IfOk result (λ r. IsRunWith job.now r.0 (journal r.1.desk)) }
    ensures hooks { IfOk result (λ r. AreHooksOf hooks r.1) }
    ensures visited { IfOk result (λ r. HaveVisited r.0.rounds r.1.readers.items) }
    ensures ear { IfOk result (λ r. (E.name r.2 ≡ E.name ear)
        × (E.heard r.2 ≡ option_map (λ names. names ++ names_in r.0.rounds) (E.heard ear))) }
    ensures tender { T.name tender.new ≡ T.name tender.old }
{
    let Hooks {
        store,
        desk,
        readers,
    } = hooks;
    match run_over(rt, alloc, &store, job, desk, readers, gates, ear, tender) {
        Ok(end) => {
            let JobEnd {
                run,
                desk,
                readers,
                ear,
            } = end;
            Ok((
                run,
                Hooks {
                    store,
                    desk,
                    readers,
                },
                ear,
            ))
        }
        Err(refused) => Err(refused),
    }
}

/// Runs a job over a new hook: the run is a lawful one of the job, the hook's journal is its own, and its
/// readers, all outside, have made as many visits as the run tells.
///
/// `NoMemory`: memory was refused, here or in a thread. The hook is gone.
pub fn run_job<R: Threads + Wait + Sync, G: Gate>(
    rt: &R,
    alloc: Global,
    hooks: Hooks,
    job: &LoadedJob,
    gates: &G,
) -> Result<(RunRecord, Hooks), NoMemory>
    requires job { IsLoaded job.now }
    requires hooks { AreNewHooks job.now.job.workers hooks }
    ensures run { IfOk result (λ r. IsRunWith job.now r.0 (journal r.1.desk)) }
    ensures hooks { IfOk result (λ r. AreHooksOf hooks r.1) }
    ensures visited { IfOk result (λ r. HaveVisited r.0.rounds r.1.readers.items) }
{
    let (run, hooks, _) = run_job_heard(rt, alloc, hooks, job, gates, NoEar, &mut NoTender)?;
    Ok((run, hooks))
}
