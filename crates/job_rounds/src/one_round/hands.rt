//! What goes into a worker's thread, and what comes back.
ghost use Rattle.std.specs.Prelude.{◌≡◌, length, map, IfOk};
ghost use Rattle.std.specs.List.{AllByRecursion};
ghost use Rattle.job_rounds.specs.OfRoundState.Rounds.{store_name};
ghost use Rattle.job_rounds.specs.OfOneRound.Hands.{AreWalkable, CanWork, HasWorked, fresh_seat};

use crate::one_round::begun::Alone;
use crate::one_round::bell::Bell;
use hook_store_law::HookStore;
use pcap_io::Packets;
use std::alloc::Global;
use std::snapshot::Snapshot;
use std::sync::Wait;
use std::thread::{Promise, PromisedHandle};
use step_counts::{ClaimSeat, ClaimSeats, Claims};
use tc_base::{Gate, Hook, NoMemory};
use worker_rounds::logs::WalkLog;
use worker_rounds::{RoundWork, Worker, work};

/// A worker, with the seat at which it draws packets.
#[derive(Drop)]
pub(crate) struct Hand {
    pub worker: Worker,
    pub seat: ClaimSeat,
}

/// A worker behind its round, with its seat and its log. `NoMemory`: memory was refused for a row.
#[derive(Drop)]
pub(crate) struct Ended {
    pub worker: Worker,
    pub seat: ClaimSeat,
    pub log: Result<WalkLog, NoMemory>,
}

/// That what comes back is the end of a hand's work.
#[derive(Drop)]
pub(crate) struct OfRound {
    pub hand: Snapshot<Hand>,
    pub store: Snapshot<HookStore>,
    pub hook: Hook,
    pub packets: Snapshot<Packets>,
}

impl Promise<Ended> for OfRound {
    ghost use Rattle.job_rounds.specs.OfOneRound.Hands.{KeepsPromise};

    ghost kept_by = { KeepsPromise };
}

/// A worker that works in a thread of its own; or one that has none, and has worked: there were no packets, or
/// the system refused a thread.
#[derive(Drop)]
pub(crate) enum Started {
    There(PromisedHandle<Ended, OfRound>),
    Here(Ended, Alone),
}

/// Gives each worker a seat.
pub(crate) fn hands_of(
    alloc: Global,
    workers: Vec<Worker>,
    mut seats: ClaimSeats,
) -> Result<Vec<Hand>, NoMemory>
    requires { seats.left ≡ length workers.items }
    ensures workers { IfOk result (λ hands. map (λ hand. hand.worker) hands.items ≡ workers.items) }
    ensures seats { IfOk result (λ hands. AllByRecursion (λ hand. hand.seat
        ≡ fresh_seat seats.making seats.seats) hands.items) }
{
    let mut hands = Vec::with_capacity(alloc, workers.len())?;
    for worker in workers {
        let Some(seat) = seats.take() else {
            unreachable!()
        };
        hands.push(Hand { worker, seat })?;
    }
    Ok(hands)
}

/// A hand's work of a round, in whatever thread. It leaves the bell.
pub(crate) fn work_of<G: Gate, R: Wait>(
    rt: &R,
    alloc: Global,
    hand: Hand,
    store: &HookStore,
    claims: &Claims,
    gates: &G,
    hook: Hook,
    packets: &Packets,
    bell: &Bell,
) -> Ended
    requires packets { AreWalkable (store_name store.now) packets.now }
    requires hand { CanWork (store_name store.now) claims.now (length packets.now) hand }
    ensures { HasWorked (store_name store.now) hook packets.now hand result }
{
    let Hand {
        mut worker,
        mut seat,
    } = hand;
    let round = RoundWork {
        store,
        claims,
        gates,
        hook,
        packets,
    };
    let log = work(alloc, &mut worker, &mut seat, &round);
    bell.leave(rt);
    Ended { worker, seat, log }
}
