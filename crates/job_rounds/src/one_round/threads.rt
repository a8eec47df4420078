//! The threads of a round, from their start to their end.
ghost use Rattle.std.specs.Prelude.{◌≡◌, length, map, IfOk};
ghost use Rattle.job_rounds.specs.OfOneRound.Numbers.{AreAll};
ghost use Rattle.job_rounds.specs.OfRoundState.Rounds.{store_name};
ghost use Rattle.job_rounds.specs.OfOneRound.Rounds.{IsNamedRound};
ghost use Rattle.job_rounds.specs.OfOneRound.Hands.{AreClaimed, AreWalkable, IsBackFrom};
ghost use Rattle.job_rounds.specs.OfOneRound.Ends.{IsRoundEnd};

use crate::one_round::begun::Begun;
use crate::one_round::bell::Bell;
use crate::one_round::ending::end_round;
use crate::one_round::hands::Hand;
use crate::one_round::joining::{Back, join_workers};
use crate::one_round::round_end::RoundEnd;
use crate::one_round::starting::{start_controls, start_workers};
use crate::one_round::tending::tend;
use crate::round_state::{RoundName, RoundState};
use round_terms::LoadedJob;
use std::alloc::Global;
use std::snapshot::Snapshot;
use std::sync::{Mutex, Wait};
use std::thread;
use std::thread::{Scope, Threads};
use tc_base::{Ear, Gate, NoMemory, Tender};
use worker_rounds::RoundWork;

// Starts all threads, takes the tender's turns while they are busy, and joins the workers.
fn run_in<'s, 'e, N: RoundName + Send + Sync, E: Ear, G: Gate, T: Tender, R: Threads + Wait + Sync>(
    scope: &'s Scope<'s, &'e ()>,
    rt: &'e R,
    alloc: Global,
    lock: &'e Mutex<RoundState<N, E>>,
    job: &'e LoadedJob,
    number: u32,
    hands: Vec<Hand>,
    round: &RoundWork<'e, G>,
    bell: &'e Bell,
    tender: &mut T,
) -> Result<(Back, Vec<Begun<N, E>>), NoMemory>
    requires named { IsNamedRound N.store N.job N.number (length N.before) N.ear.spare
        (store_name round.now.store.now) job.now number }
    requires packets { AreWalkable (store_name round.now.store.now) round.now.packets.now }
    requires hands { AreClaimed (store_name round.now.store.now) round.now.claims.now
        (length round.now.packets.now) hands.items }
    ensures tender { T.name tender.new ≡ T.name tender.old }
    ensures back { IfOk result (λ r. IsBackFrom (store_name round.now.store.now) round.now.hook
        round.now.packets.now hands.items r.0) }
    ensures begun { IfOk result (λ r. AreAll job.now.job.controls r.1.items) }
{
    let begun = start_controls(
        scope,
        rt,
        alloc,
        lock,
        round.store,
        job,
        number,
        round.gates,
        bell,
    )?;
    let all = start_workers(scope, rt, alloc, hands, round, bell)?;
    tend(rt, bell, tender);
    let back = join_workers(rt, alloc, all)?;
    Ok((back, begun))
}

// Runs the threads of a round. When it returns, none of them is left.
fn run_threads<N: RoundName + Send + Sync, E: Ear, G: Gate, T: Tender, R: Threads + Wait + Sync>(
    rt: &R,
    alloc: Global,
    lock: &Mutex<RoundState<N, E>>,
    job: &LoadedJob,
    number: u32,
    hands: Vec<Hand>,
    round: &RoundWork<'_, G>,
    tender: &mut T,
) -> Result<(Back, Vec<Begun<N, E>>), NoMemory>
    requires named { IsNamedRound N.store N.job N.number (length N.before) N.ear.spare
        (store_name round.now.store.now) job.now number }
    requires packets { AreWalkable (store_name round.now.store.now) round.now.packets.now }
    requires hands { AreClaimed (store_name round.now.store.now) round.now.claims.now
        (length round.now.packets.now) hands.items }
    ensures tender { T.name tender.new ≡ T.name tender.old }
    ensures back { IfOk result (λ r. IsBackFrom (store_name round.now.store.now) round.now.hook
        round.now.packets.now hands.items r.0) }
    ensures begun { IfOk result (λ r. AreAll job.now.job.controls r.1.items) }
{
    let bell = Bell::new(job.job.controls.saturating_add(hands.len() as u32));
    let bell = &bell;
    let (back, _tender) = thread::scope(
        thread::scope_env(),
        rt,
        move |scope|
            requires { IsNamedRound N.store N.job N.number (length N.before) N.ear.spare
                (store_name round.now.store.now) job.now number
                × AreWalkable (store_name round.now.store.now) round.now.packets.now
                × AreClaimed (store_name round.now.store.now) round.now.claims.now
                (length round.now.packets.now) hands.items }
        {
            let back = run_in(
                scope, rt, alloc, lock, job, number, hands, round, bell, tender,
            );
            (back, tender)
        },
    );
    back
}

/// Runs a round whose workers have their seats, from its threads to its record.
pub(crate) fn run_hands<
    N: RoundName + Send + Sync,
    E: Ear,
    G: Gate,
    T: Tender,
    R: Threads + Wait + Sync,
>(
    rt: &R,
    alloc: Global,
    state: RoundState<N, E>,
    job: &LoadedJob,
    number: u32,
    hands: Vec<Hand>,
    round: &RoundWork<'_, G>,
    tender: &mut T,
) -> Result<RoundEnd<E>, NoMemory>
    requires named { IsNamedRound N.store N.job N.number (length N.before) N.ear.spare
        (store_name round.now.store.now) job.now number }
    requires packets { AreWalkable (store_name round.now.store.now) round.now.packets.now }
    requires hands { AreClaimed (store_name round.now.store.now) round.now.claims.now
        (length round.now.packets.now) hands.items }
    ensures tender { T.name tender.new ≡ T.name tender.old }
    ensures end { IfOk result (IsRoundEnd E.name E.heard E.spare N.store N.job N.number round.now.hook
        round.now.packets.now N.before N.ear (map (λ hand. hand.worker) hands.items)) }
{
    let before = Snapshot::of(&hands);
    let lock = Mutex::new(state);
    let (back, begun) = run_threads(rt, alloc, &lock, job, number, hands, round, tender)?;
    let state = lock.into_inner();
    end_round(
        rt, alloc, state, job, number, round, tender, before, back, begun,
    )
}
