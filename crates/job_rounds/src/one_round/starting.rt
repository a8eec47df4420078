//! Starts the threads of a round.
ghost use Rattle.std.specs.Prelude.{◌≡◌, ◌≤◌, length, IfOk, OnOk};
ghost use Rattle.std.specs.List.{AllByRecursion, AllZip};
ghost use Rattle.job_rounds.specs.OfRoundState.Rounds.{store_name};
ghost use Rattle.job_rounds.specs.OfOneRound.Rounds.{IsNamedRound};
ghost use Rattle.job_rounds.specs.OfOneRound.Controls.{WasThrough};
ghost use Rattle.job_rounds.specs.OfOneRound.Numbers.{AreAll};
ghost use Rattle.job_rounds.specs.OfOneRound.Hands.{AreWalkable, CanWork, HasWorked, IsStartedFor};

use crate::one_round::begun::{Alone, Begun, NoThread, OfControl};
use crate::one_round::bell::Bell;
use crate::one_round::controls::{control_all, line_of};
use crate::one_round::hands::{Ended, Hand, OfRound, Started, work_of};
use crate::round_state::{RoundName, RoundState};
use hook_store_law::HookStore;
use round_terms::LoadedJob;
use std::alloc::Global;
use std::marker::PhantomData;
use std::snapshot::Snapshot;
use std::sync::{Mutex, Wait};
use std::thread::{Scope, Threads};
use tc_base::{Ear, Gate, NoMemory};
use worker_rounds::RoundWork;

// Starts the thread of a control that has a line to meet. The lines of one that can have no thread are met
// behind the threads.
fn start_control<'s, 'e, N: RoundName + Send + Sync, E: Ear, G: Gate, R: Threads + Wait + Sync>(
    scope: &'s Scope<'s, &'e ()>,
    rt: &'e R,
    lock: &'e Mutex<RoundState<N, E>>,
    store: &'e HookStore,
    job: &'e LoadedJob,
    round: u32,
    control: u32,
    gates: &'e G,
    bell: &'e Bell,
) -> Begun<N, E>
    requires named { IsNamedRound N.store N.job N.number (length N.before) N.ear.spare (store_name store.now)
        job.now round }
    requires control { (1 ≤ control) × (control ≤ job.now.job.controls) }
    ensures { result ≡ control }
{
    let Some(_) = line_of(rt, lock, store, job, round, control) else {
        bell.leave(rt);
        return Begun {
            control,
            thread: Err(Alone::Idle),
        };
    };
    let promise = OfControl {
        control,
        of: PhantomData,
    };
    match scope.spawn_with(
        promise,
        move || -> Result<(), NoMemory>
            requires { IsNamedRound N.store N.job N.number (length N.before) N.ear.spare
                (store_name store.now) job.now round × (1 ≤ control)
                × (control ≤ job.now.job.controls) }
            ensures { OnOk result (WasThrough E.name E.heard E.spare N.store N.job N.number N.before N.ear
                control) }
        { control_all(rt, lock, store, job, round, control, gates, bell) },
    ) {
        Ok(handle) => Begun {
            control,
            thread: Ok(handle),
        },
        Err(refused) => {
            bell.leave(rt);
            Begun {
                control,
                thread: Err(Alone::Refused(NoThread::of(&refused))),
            }
        }
    }
}

/// Starts a thread for each control that has a line to meet, where the system doesn't refuse it.
pub(crate) fn start_controls<
    's,
    'e,
    N: RoundName + Send + Sync,
    E: Ear,
    G: Gate,
    R: Threads + Wait + Sync,
>(
    scope: &'s Scope<'s, &'e ()>,
    rt: &'e R,
    alloc: Global,
    lock: &'e Mutex<RoundState<N, E>>,
    store: &'e HookStore,
    job: &'e LoadedJob,
    round: u32,
    gates: &'e G,
    bell: &'e Bell,
) -> Result<Vec<Begun<N, E>>, NoMemory>
    requires named { IsNamedRound N.store N.job N.number (length N.before) N.ear.spare (store_name store.now)
        job.now round }
    ensures { IfOk result (λ all. AreAll job.now.job.controls all.items) }
{
    let mut all = Vec::with_capacity(alloc, job.job.controls as usize)?;
    for done in 0..job.job.controls {
        let begun = start_control(scope, rt, lock, store, job, round, done + 1, gates, bell);
        all.push(begun)?;
    }
    Ok(all)
}

// Starts the thread of a worker. One that can have no thread works here, and so does each where there are no
// packets: it draws one number.
fn start_worker<'s, 'e, G: Gate, R: Threads + Wait + Sync>(
    scope: &'s Scope<'s, &'e ()>,
    rt: &'e R,
    alloc: Global,
    hand: Hand,
    round: &RoundWork<'e, G>,
    bell: &'e Bell,
) -> Started
    requires packets { AreWalkable (store_name round.now.store.now) round.now.packets.now }
    requires hand { CanWork (store_name round.now.store.now) round.now.claims.now
        (length round.now.packets.now) hand }
    ensures { IsStartedFor (store_name round.now.store.now) round.now.hook round.now.packets.now hand result }
{
    let (store, claims, gates) = (round.store, round.claims, round.gates);
    let (hook, packets) = (round.hook, round.packets);
    if packets.is_empty() {
        let end = work_of(rt, alloc, hand, store, claims, gates, hook, packets, bell);
        return Started::Here(end, Alone::Idle);
    }
    let promise = OfRound {
        hand: Snapshot::of(&hand),
        store: Snapshot::of(store),
        hook,
        packets: Snapshot::of(packets),
    };
    match scope.spawn_with(
        promise,
        move || -> Ended
            requires { AreWalkable (store_name store.now) packets.now
                × CanWork (store_name store.now) claims.now (length packets.now) hand }
            ensures { HasWorked (store_name store.entry.now) hook packets.entry.now hand result }
        { work_of(rt, alloc, hand, store, claims, gates, hook, packets, bell) },
    ) {
        Ok(handle) => Started::There(handle),
        Err(refused) => {
            let why = Alone::Refused(NoThread::of(&refused));
            Started::Here((refused.value)(), why)
        }
    }
}

/// Starts a thread for each worker.
pub(crate) fn start_workers<'s, 'e, G: Gate, R: Threads + Wait + Sync>(
    scope: &'s Scope<'s, &'e ()>,
    rt: &'e R,
    alloc: Global,
    hands: Vec<Hand>,
    round: &RoundWork<'e, G>,
    bell: &'e Bell,
) -> Result<Vec<Started>, NoMemory>
    requires packets { AreWalkable (store_name round.now.store.now) round.now.packets.now }
    requires hands { AllByRecursion (CanWork (store_name round.now.store.now) round.now.claims.now
        (length round.now.packets.now)) hands.items }
    ensures { IfOk result (λ all. AllZip (IsStartedFor (store_name round.now.store.now) round.now.hook
        round.now.packets.now) hands.items all.items) }
{
    let mut all = Vec::with_capacity(alloc, hands.len())?;
    for hand in hands {
        all.push(start_worker(scope, rt, alloc, hand, round, bell))?;
    }
    Ok(all)
}
