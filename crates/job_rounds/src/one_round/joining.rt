//! Waits for a round's workers.
ghost use Rattle.std.specs.Prelude.{◌≡◌, ◌++◌, ◌∷◌, [], List, IfOk, OnOk};
ghost use Rattle.std.specs.List.{AllZip};
ghost use Rattle.tc_base.specs.declared.hook.Hook.{Hook as AHook};
ghost use Rattle.pcap_io.specs.declared.capture.Packet.{Packet};
ghost use Rattle.job_rounds.specs.OfRoundState.Rounds.{StoreName};
ghost use Rattle.job_rounds.specs.declared.one_round.hands.Hand.{Hand as AHand};
ghost use Rattle.job_rounds.specs.OfOneRound.Hands.{HasWorked, IsPut, IsStartedFor, IsBackFrom};

use crate::one_round::hands::{Ended, Started};
use std::alloc::Global;
use std::thread::Threads;
use step_counts::ClaimSeat;
use tc_base::NoMemory;
use worker_rounds::Worker;
use worker_rounds::logs::WalkLog;

/// What all workers brought back, each at its place.
#[derive(Drop)]
pub(crate) struct Back {
    pub workers: Vec<Worker>,
    pub seats: Vec<ClaimSeat>,
    pub logs: Vec<WalkLog>,
}

impl Back {
    // Nothing yet.
    fn new(alloc: Global) -> Back
        ensures { (result.workers.items ≡ []) × (result.seats.items ≡ []) × (result.logs.items ≡ []) }
    {
        Back {
            workers: Vec::new(alloc),
            seats: Vec::new(alloc),
            logs: Vec::new(alloc),
        }
    }

    // One more. A worker that found no memory is as much as no memory for its log.
    fn put(&mut self, end: Ended) -> Result<(), NoMemory>
        ensures { OnOk result (IsPut self.old self.new end) }
    {
        let Ended { worker, seat, log } = end;
        self.workers.push(worker)?;
        self.seats.push(seat)?;
        self.logs.push(log?)?;
        Ok(())
    }
}

// The end of a worker.
fn end_of<R: Threads>(rt: &R, started: Started) -> Ended
    ensures { (store : StoreName) (hook : AHook) (packets : List Packet) (hand : AHand)
        → IsStartedFor store hook packets hand started → HasWorked store hook packets hand result }
{
    match started {
        Started::There(handle) => handle.join(rt),
        Started::Here(end, _) => end,
    }
}

/// What all workers bring back. `NoMemory`: memory was refused here, or to one of them.
pub(crate) fn join_workers<R: Threads>(
    rt: &R,
    alloc: Global,
    all: Vec<Started>,
) -> Result<Back, NoMemory>
    ensures { IfOk result (λ back. (store : StoreName) (hook : AHook) (packets : List Packet)
        (hands : List AHand) → AllZip (IsStartedFor store hook packets) hands all.items
        → IsBackFrom store hook packets hands back) }
{
    let mut back = Back::new(alloc);
    for started in all {
        back.put(end_of(rt, started))?;
    }
    Ok(back)
}
