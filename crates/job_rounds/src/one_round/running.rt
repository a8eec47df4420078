//! One round of a job.
ghost use Rattle.std.specs.Prelude.{◌≡◌, ◌≤◌, length, map, IfOk};
ghost use Rattle.std.specs.List.{AllByRecursion};
ghost use Rattle.pin_store.specs.Calls.{IsSeatOf};
ghost use Rattle.round_terms.specs.Files.{files_of};
ghost use Rattle.round_terms.specs.Hearing.{ear_of, HasHeard};
ghost use Rattle.round_terms.specs.Underway.{IsMadeSince};
ghost use Rattle.job_rounds.specs.OfRoundState.Views.{journal};
ghost use Rattle.worker_rounds.specs.Worked.{arrivals_of};
ghost use Rattle.job_rounds.specs.OfRoundState.Rounds.{store_name, IsDeskOf};
ghost use Rattle.job_rounds.specs.OfOneRound.Rounds.{AreEvents, IsNamedRound, IsRoundWithRoom};
ghost use Rattle.job_rounds.specs.OfOneRound.Hands.{AreReady, AreWalkable, fresh_seat};
ghost use Rattle.job_rounds.specs.OfOneRound.Ends.{HaveWalked, IsLawfulRound, IsRoundEnd};
ghost use Rattle.job_rounds.specs.Tidied.{IsReadied};

use crate::one_round::hands::{Hand, hands_of};
use crate::one_round::round_end::RoundEnd;
use crate::one_round::threads::run_hands;
use crate::round_state::{Desk, RoundName, RoundState};
use hook_store_law::HookStore;
use pcap_io::Packets;
use round_terms::LoadedJob;
use std::alloc::Global;
use std::marker::Brand;
use std::sync::Wait;
use std::thread::Threads;
use step_counts::{Claims, make_claims};
use tc_base::{Ear, Gate, Hook, NoMemory, Tender};
use worker_rounds::{RoundWork, Worker};

// The claims of a round, and its workers, each with a seat.
fn seated(alloc: Global, count: u32, workers: Vec<Worker>) -> Result<(Claims, Vec<Hand>), NoMemory>
    requires { (1 ≤ count) × (length workers.items ≡ count) }
    ensures workers { IfOk result (λ made. map (λ hand. hand.worker) made.1.items ≡ workers.items) }
    ensures seats { IfOk result (λ made. AllByRecursion (λ hand. hand.seat ≡ fresh_seat made.0 count)
        made.1.items) }
{
    let (claims, seats) = make_claims(alloc, count)?;
    let hands = hands_of(alloc, workers, seats)?;
    Ok((claims, hands))
}

// Runs the round that is named.
fn run_named<N: RoundName + Send + Sync, E: Ear, G: Gate, T: Tender, R: Threads + Wait + Sync>(
    rt: &R,
    alloc: Global,
    store: &HookStore,
    job: &LoadedJob,
    number: u32,
    hook: Hook,
    packets: &Packets,
    desk: Desk,
    ear: E,
    workers: Vec<Worker>,
    gates: &G,
    tender: &mut T,
) -> Result<RoundEnd<E>, NoMemory>
    requires named { IsNamedRound N.store N.job N.number (length N.before) N.ear.spare
        (store_name store.now) job.now number }
    requires desk { IsDeskOf N.store desk × (journal desk ≡ N.before) }
    requires ear { ear_of E.name E.heard E.spare ear ≡ N.ear }
    requires packets { AreWalkable (store_name store.now) packets.now }
    requires workers { AreReady (store_name store.now) (length packets.now) job.now.job.workers
        workers.items }
    ensures tender { T.name tender.new ≡ T.name tender.old }
    ensures end { IfOk result (IsRoundEnd E.name E.heard E.spare N.store N.job N.number hook packets.now
        N.before N.ear workers.items) }
{
    let (claims, hands) = match seated(alloc, job.job.workers, workers) {
        Ok(it) => it,
        Err(memory) => {
            // In one call: part by part it is long to prove.
            drop((desk, ear));
            return Err(memory);
        }
    };
    let state = RoundState::<N, E>::new(alloc, desk, ear, job.job.controls)?;
    let round = RoundWork {
        store,
        claims: &claims,
        gates,
        hook,
        packets,
    };
    run_hands(rt, alloc, state, job, number, hands, &round, tender)
}

/// Runs a round of a job: each control applies the lines of its batch at the desk while the workers walk
/// the packets, which come at the hook. Rounds are counted from 1.
///
/// The events are an interleaving of the controls' lines, each with its result, and the desk's journal is
/// the one before with the accepted edits behind it. The ear has heard of just these. Each packet has one
/// outcome, and the round is a lawful one, if the workers had seen all edits and all of their own earlier
/// points.
///
/// The desk was tidied. A control without a line has no thread, nor has a worker where there are no packets.
/// A control or a worker for which the system makes no thread has its work done in the caller's. It may wait:
/// for threads, at the gate, at a held edit. The tender has turns while it waits, and one behind all threads.
///
/// `NoMemory`: memory was refused, here or in a thread. All threads are gone by then, with all that came in.
pub fn run_round<E: Ear, G: Gate, T: Tender, R: Threads + Wait + Sync>(
    rt: &R,
    alloc: Global,
    store: &HookStore,
    job: &LoadedJob,
    number: u32,
    hook: Hook,
    packets: &Packets,
    desk: Desk,
    ear: E,
    workers: Vec<Worker>,
    gates: &G,
    tender: &mut T,
) -> Result<RoundEnd<E>, NoMemory>
    requires round { IsRoundWithRoom job.now number (length (journal desk)) (E.spare ear) }
    requires desk { IsSeatOf store.now desk.place }
    requires tidied { IsReadied desk }
    requires packets { AreWalkable (store_name store.now) packets.now }
    requires workers { AreReady (store_name store.now) (length packets.now) job.now.job.workers
        workers.items }
    ensures desk { IfOk result (λ end. IsSeatOf store.now end.desk.place) }
    ensures events { IfOk result (λ end. AreEvents (files_of job.now number) (journal desk) (journal end.desk)
        end.round.events) }
    ensures made { IfOk result (λ end. IsMadeSince (journal desk) (journal end.desk) end.made.items) }
    ensures ear { IfOk result (λ end. HasHeard E.name E.heard E.spare (ear_of E.name E.heard E.spare ear)
        end.ear number (length (journal desk)) end.round.events) }
    ensures walked { IfOk result (λ end. HaveWalked (store_name store.now) hook packets.now (journal end.desk)
        workers.items end.workers.items end.round.outcomes) }
    ensures lawful { IfOk result (λ end. IsLawfulRound job.now number (arrivals_of hook packets.now)
        (journal desk) (journal end.desk) workers.items end.round) }
    ensures tender { T.name tender.new ≡ T.name tender.old }
{
    run_named::<Brand, E, G, T, R>(
        rt, alloc, store, job, number, hook, packets, desk, ear, workers, gates, tender,
    )
}
