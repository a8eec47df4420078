//! The end of a round, behind its threads.
ghost use Rattle.std.specs.Prelude.{◌≡◌, length, map, IfOk};
ghost use Rattle.round_terms.specs.Files.{files_of};
ghost use Rattle.job_rounds.specs.OfRoundState.Rounds.{store_name};
ghost use Rattle.job_rounds.specs.OfOneRound.Rounds.{IsNamedRound, AreThrough};
ghost use Rattle.job_rounds.specs.OfOneRound.Hands.{AreClaimed, AreWalkable, IsBackFrom};
ghost use Rattle.job_rounds.specs.OfOneRound.Ends.{IsRoundEnd};
ghost use Rattle.job_rounds.specs.OfOneRound.Numbers.{AreAll};

use crate::one_round::begun::Begun;
use crate::one_round::finishing::finish_all;
use crate::one_round::hands::Hand;
use crate::one_round::joining::Back;
use crate::one_round::outcomes::{meet_all, settle};
use crate::one_round::round_end::RoundEnd;
use crate::round_state::{RoundName, RoundState};
use round_terms::LoadedJob;
use run_report::RoundRecord;
use std::alloc::Global;
use std::snapshot::Snapshot;
use std::sync::Wait;
use tc_base::{Ear, Gate, NoMemory, Tender};
use worker_rounds::RoundWork;

// The record of a round whose controls are through and whose workers are back.
fn record_round<N: RoundName, E: Ear, G: Gate>(
    alloc: Global,
    state: RoundState<N, E>,
    job: &LoadedJob,
    number: u32,
    round: &RoundWork<'_, G>,
    hands: Snapshot<Vec<Hand>>,
    back: Back,
) -> Result<RoundEnd<E>, NoMemory>
    requires named { IsNamedRound N.store N.job N.number (length N.before) N.ear.spare
        (store_name round.now.store.now) job.now number }
    requires packets { AreWalkable (store_name round.now.store.now) round.now.packets.now }
    requires through { AreThrough (files_of N.job N.number) job.now.job.controls state.events }
    requires hands { AreClaimed (store_name round.now.store.now) round.now.claims.now
        (length round.now.packets.now) hands.value.items }
    requires back { IsBackFrom (store_name round.now.store.now) round.now.hook round.now.packets.now
        hands.value.items back }
    ensures { IfOk result (IsRoundEnd E.name E.heard E.spare N.store N.job N.number round.now.hook
        round.now.packets.now N.before N.ear (map (λ hand. hand.worker) hands.value.items)) }
{
    let (mut desk, events, ear, made) = state.close_with_made();
    let Back {
        mut workers,
        seats,
        logs,
    } = back;
    meet_all(round.store, &mut desk, &mut workers);
    let count = round.packets.len() as u32;
    let outcomes = match settle(alloc, round.claims, seats, logs, count) {
        Ok(outcomes) => outcomes,
        Err(memory) => {
            drop((desk, ear));
            drop((workers, events));
            drop(made);
            return Err(memory);
        }
    };
    Ok(RoundEnd {
        desk,
        ear,
        workers,
        round: RoundRecord { events, outcomes },
        made,
    })
}

/// Ends a round whose threads are gone: meets the lines that are left, and makes the round's record. The
/// tender has one turn more.
pub(crate) fn end_round<N: RoundName, E: Ear, G: Gate, T: Tender, R: Wait>(
    rt: &R,
    alloc: Global,
    mut state: RoundState<N, E>,
    job: &LoadedJob,
    number: u32,
    round: &RoundWork<'_, G>,
    tender: &mut T,
    hands: Snapshot<Vec<Hand>>,
    back: Back,
    begun: Vec<Begun<N, E>>,
) -> Result<RoundEnd<E>, NoMemory>
    requires named { IsNamedRound N.store N.job N.number (length N.before) N.ear.spare
        (store_name round.now.store.now) job.now number }
    requires begun { AreAll job.now.job.controls begun.items }
    requires packets { AreWalkable (store_name round.now.store.now) round.now.packets.now }
    requires hands { AreClaimed (store_name round.now.store.now) round.now.claims.now
        (length round.now.packets.now) hands.value.items }
    requires back { IsBackFrom (store_name round.now.store.now) round.now.hook round.now.packets.now
        hands.value.items back }
    ensures tender { T.name tender.new ≡ T.name tender.old }
    ensures end { IfOk result (IsRoundEnd E.name E.heard E.spare N.store N.job N.number round.now.hook
        round.now.packets.now N.before N.ear (map (λ hand. hand.worker) hands.value.items)) }
{
    if let Err(memory) = finish_all(rt, &mut state, round.store, job, number, round.gates, begun) {
        drop((state, back));
        return Err(memory);
    }
    tender.turn();
    record_round(alloc, state, job, number, round, hands, back)
}
