//! The lines that are left behind a round's threads.
ghost use Rattle.std.specs.Prelude.{◌≡◌, ◌≢◌, ◌≤◌, ℕ, length, OnOk};
ghost use Rattle.lawful_runs.specs.Events.{events_of};
ghost use Rattle.round_terms.specs.Files.{files_of};
ghost use Rattle.round_terms.specs.Coming.{IsThroughAll};
ghost use Rattle.job_rounds.specs.OfRoundState.Rounds.{store_name};
ghost use Rattle.job_rounds.specs.OfOneRound.Rounds.{IsNamedRound, AreThrough};
ghost use Rattle.job_rounds.specs.OfOneRound.Numbers.{AreAll};

use crate::one_round::begun::Begun;
use crate::one_round::turns::turn_while;
use crate::round_state::{RoundName, RoundState, Turned};
use hook_store_law::HookStore;
use round_terms::LoadedJob;
use std::sync::Wait;
use std::thread;
use tc_base::{Ear, Gate, NoMemory};

// Meets the next line of a control. One that is held is tried again.
fn meet_next<N: RoundName, E: Ear, R: Wait>(
    rt: &R,
    state: &mut RoundState<N, E>,
    store: &HookStore,
    job: &LoadedJob,
    round: u32,
    control: u32,
) -> Result<(), NoMemory>
    requires named { IsNamedRound N.store N.job N.number (length N.before) N.ear.spare (store_name store.now)
        job.now round }
    requires control { (1 ≤ control) × (control ≤ job.now.job.controls) }
    ensures { (other : ℕ) → other ≢ control
        → events_of other state.new.events ≡ events_of other state.old.events }
{
    for _ in rt.forever() {
        match turn_while(rt, state, store, job, round, control) {
            Turned::Applied => return Ok(()),
            Turned::Over => return Ok(()),
            Turned::Held { .. } => thread::yield_now(),
            Turned::NoMemory(memory) => return Err(memory),
        }
    }
    unreachable!()
}

// Meets all lines that are left of a control.
fn finish_control<N: RoundName, E: Ear, G: Gate, R: Wait>(
    rt: &R,
    state: &mut RoundState<N, E>,
    store: &HookStore,
    job: &LoadedJob,
    round: u32,
    control: u32,
    gates: &G,
) -> Result<(), NoMemory>
    requires named { IsNamedRound N.store N.job N.number (length N.before) N.ear.spare (store_name store.now)
        job.now round }
    requires control { (1 ≤ control) × (control ≤ job.now.job.controls) }
    ensures through { OnOk result (IsThroughAll (files_of N.job N.number) control state.new.events) }
    ensures others { (other : ℕ) → other ≢ control
        → events_of other state.new.events ≡ events_of other state.old.events }
{
    for _ in rt.forever() {
        let Some(line) = state.next_line(job, round, control) else {
            return Ok(());
        };
        gates.before_edit(control, line);
        meet_next(rt, state, store, job, round, control)?;
        gates.after_edit(control, line);
    }
    unreachable!()
}

/// Meets all lines that are left, of those controls that had no thread, or whose threads found no memory, once
/// each has begun. In each case it is what tells that every control is through.
pub(crate) fn finish_all<N: RoundName, E: Ear, G: Gate, R: Wait>(
    rt: &R,
    state: &mut RoundState<N, E>,
    store: &HookStore,
    job: &LoadedJob,
    round: u32,
    gates: &G,
    _begun: Vec<Begun<N, E>>,
) -> Result<(), NoMemory>
    requires named { IsNamedRound N.store N.job N.number (length N.before) N.ear.spare (store_name store.now)
        job.now round }
    requires begun { AreAll job.now.job.controls _begun.items }
    ensures { OnOk result (AreThrough (files_of N.job N.number) job.now.job.controls state.new.events) }
{
    for done in 0..job.job.controls {
        finish_control(rt, state, store, job, round, done + 1, gates)?;
    }
    Ok(())
}
