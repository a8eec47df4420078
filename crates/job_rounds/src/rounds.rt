//! A job's rounds, one after the other.
ghost use Rattle.std.specs.Prelude.{◌≡◌, ◌-◌, ◌+◌, ◌≤◌, ℕ, [], length, IfOk, IfSome, Some};
ghost use Rattle.pin_store.specs.Calls.{IsSeatOf};
ghost use Rattle.lawful_runs.specs.Given.{IsLoaded};
ghost use Rattle.round_terms.specs.Hearing.{EarView};
ghost use Rattle.job_rounds.specs.OfRoundState.Views.{journal};
ghost use Rattle.job_rounds.specs.OfRoundState.Rounds.{store_name};
ghost use Rattle.desk_parts.specs.Desk.{hook_shape};
ghost use Rattle.job_rounds.specs.SoFar.{IsSoFar, HasRoom};

use crate::course::{Course, behind};
use crate::one_round::run_round;
use crate::packets::packets_of;
use crate::readying::make_ready;
use hook_store_law::HookStore;
use pcap_io::Packets;
use round_terms::LoadedJob;
use std::alloc::Global;
use std::sync::Wait;
use std::thread::Threads;
use tc_base::{Ear, Gate, NoMemory, Tender};

// Runs the next round.
fn run_next<E: Ear, G: Gate, T: Tender, R: Threads + Wait + Sync>(
    rt: &R,
    alloc: Global,
    store: &HookStore,
    job: &LoadedJob,
    number: u32,
    none: &Packets,
    course: Course<E>,
    gates: &G,
    tender: &mut T,
) -> Result<Course<E>, NoMemory>
    requires loaded { IsLoaded job.now }
    requires number { (1 ≤ number) × (number ≤ length job.now.job.rounds) }
    requires shape { store.now.shape ≡ hook_shape }
    requires none { none.now ≡ [] }
    requires so_far { (first : EarView) × IsSoFar E.name E.heard E.spare (store_name store.now) job.now first
        (number - 1) course }
    requires room { HasRoom 1 course.past }
    ensures further { (first : EarView)
        → IsSoFar E.name E.heard E.spare (store_name store.now) job.now first (number - 1) course
        → IfOk result (IsSoFar E.name E.heard E.spare (store_name store.now) job.now first number) }
    ensures room { (more : ℕ) → HasRoom (more + 1) course.past → IfOk result (λ next. HasRoom more next.past) }
    ensures tender { T.name tender.new ≡ T.name tender.old }
{
    let Course {
        mut desk,
        ear,
        mut workers,
        past,
        captures,
    } = course;
    make_ready(store, &mut desk, &mut workers);
    let round = packets_of(job, number, captures, none);
    let end = run_round(
        rt,
        alloc,
        store,
        job,
        number,
        round.hook,
        round.packets,
        desk,
        ear,
        workers,
        gates,
        tender,
    )?;
    Ok(behind(end, past, captures + round.captures))
}

/// Runs all rounds.
pub(crate) fn run_rounds<E: Ear, G: Gate, T: Tender, R: Threads + Wait + Sync>(
    rt: &R,
    alloc: Global,
    store: &HookStore,
    job: &LoadedJob,
    mut course: Course<E>,
    gates: &G,
    tender: &mut T,
) -> Result<Course<E>, NoMemory>
    requires loaded { IsLoaded job.now }
    requires shape { store.now.shape ≡ hook_shape }
    requires so_far { (first : EarView) × IsSoFar E.name E.heard E.spare (store_name store.now) job.now first 0
        course }
    requires room { HasRoom (length job.now.job.rounds) course.past }
    ensures over { (first : EarView)
        → IsSoFar E.name E.heard E.spare (store_name store.now) job.now first 0 course
        → IfOk result (IsSoFar E.name E.heard E.spare (store_name store.now) job.now first
        (length job.now.job.rounds)) }
    ensures tender { T.name tender.new ≡ T.name tender.old }
{
    let none = Packets::new(alloc);
    for over in 0..job.job.rounds.as_slice().len() as u32 {
        course = run_next(
            rt,
            alloc,
            store,
            job,
            over + 1,
            &none,
            course,
            gates,
            tender,
        )?;
    }
    Ok(course)
}
