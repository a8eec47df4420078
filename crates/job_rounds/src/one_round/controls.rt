//! What a control's thread does.
ghost use Rattle.std.specs.Prelude.{◌≡◌, ◌≤◌, length, IfSome, IfNone, OnOk};
ghost use Rattle.job_rounds.specs.OfRoundState.Rounds.{store_name};
ghost use Rattle.job_rounds.specs.OfOneRound.Rounds.{IsNamedRound};
ghost use Rattle.job_rounds.specs.OfOneRound.Controls.{HadLine, HasMet, HasTurned, WasThrough};

use crate::one_round::bell::Bell;
use crate::one_round::turns::{line_in, turn_while};
use crate::round_state::{RoundName, RoundState, Turned};
use hook_store_law::HookStore;
use round_terms::LoadedJob;
use std::sync::{Mutex, Wait};
use std::thread;
use tc_base::{Ear, Gate, NoMemory};

// The bell rings behind each line whose number is a multiple of this.
const LINES_A_RING: u64 = 64;

// A turn of a control on what the lock lends.
fn take_turn<N: RoundName, E: Ear, R: Wait>(
    rt: &R,
    lock: &Mutex<RoundState<N, E>>,
    store: &HookStore,
    job: &LoadedJob,
    round: u32,
    control: u32,
) -> Turned
    requires named { IsNamedRound N.store N.job N.number (length N.before) N.ear.spare (store_name store.now)
        job.now round }
    requires control { (1 ≤ control) × (control ≤ job.now.job.controls) }
    ensures { HasTurned E.name E.heard E.spare N.store N.job N.number N.before N.ear control result }
{
    let mut state = lock.lock(rt);
    turn_while(rt, &mut state, store, job, round, control)
}

/// The number of a control's next line, where it has one left.
pub(crate) fn line_of<N: RoundName, E: Ear, R: Wait>(
    rt: &R,
    lock: &Mutex<RoundState<N, E>>,
    store: &HookStore,
    job: &LoadedJob,
    round: u32,
    control: u32,
) -> Option<u64>
    requires named { IsNamedRound N.store N.job N.number (length N.before) N.ear.spare (store_name store.now)
        job.now round }
    requires control { (1 ≤ control) × (control ≤ job.now.job.controls) }
    ensures some { IfSome result (HadLine E.name E.heard E.spare N.store N.job N.number N.before N.ear control) }
    ensures none { IfNone result (WasThrough E.name E.heard E.spare N.store N.job N.number N.before N.ear
        control) }
{
    line_in(&lock.lock(rt), store, job, round, control)
}

// Meets the next line of a control. One that is held is tried again, and the lock is free meanwhile.
fn meet_next<N: RoundName, E: Ear, R: Wait>(
    rt: &R,
    lock: &Mutex<RoundState<N, E>>,
    store: &HookStore,
    job: &LoadedJob,
    round: u32,
    control: u32,
    bell: &Bell,
) -> Result<(), NoMemory>
    requires named { IsNamedRound N.store N.job N.number (length N.before) N.ear.spare (store_name store.now)
        job.now round }
    requires control { (1 ≤ control) × (control ≤ job.now.job.controls) }
    ensures { OnOk result (HasMet E.name E.heard E.spare N.store N.job N.number N.before N.ear control) }
{
    for _ in rt.forever() {
        match take_turn(rt, lock, store, job, round, control) {
            Turned::Applied => return Ok(()),
            Turned::Over => return Ok(()),
            Turned::Held { .. } => {
                bell.ring(rt);
                thread::yield_now();
            }
            Turned::NoMemory(memory) => return Err(memory),
        }
    }
    unreachable!()
}

// Meets all lines of a control, until none is left or memory is refused.
fn apply_lines<N: RoundName, E: Ear, G: Gate, R: Wait>(
    rt: &R,
    lock: &Mutex<RoundState<N, E>>,
    store: &HookStore,
    job: &LoadedJob,
    round: u32,
    control: u32,
    gates: &G,
    bell: &Bell,
) -> Result<(), NoMemory>
    requires named { IsNamedRound N.store N.job N.number (length N.before) N.ear.spare (store_name store.now)
        job.now round }
    requires control { (1 ≤ control) × (control ≤ job.now.job.controls) }
    ensures { OnOk result (WasThrough E.name E.heard E.spare N.store N.job N.number N.before N.ear control) }
{
    for _ in rt.forever() {
        let Some(line) = line_of(rt, lock, store, job, round, control) else {
            return Ok(());
        };
        gates.before_edit(control, line);
        meet_next(rt, lock, store, job, round, control, bell)?;
        gates.after_edit(control, line);
        if line % LINES_A_RING == 0 {
            bell.ring(rt);
        }
    }
    unreachable!()
}

/// A control's round, in a thread of its own. What it leaves, for want of memory, is met behind the threads.
pub(crate) fn control_all<N: RoundName, E: Ear, G: Gate, R: Wait>(
    rt: &R,
    lock: &Mutex<RoundState<N, E>>,
    store: &HookStore,
    job: &LoadedJob,
    round: u32,
    control: u32,
    gates: &G,
    bell: &Bell,
) -> Result<(), NoMemory>
    requires named { IsNamedRound N.store N.job N.number (length N.before) N.ear.spare (store_name store.now)
        job.now round }
    requires control { (1 ≤ control) × (control ≤ job.now.job.controls) }
    ensures { OnOk result (WasThrough E.name E.heard E.spare N.store N.job N.number N.before N.ear control) }
{
    let applied = apply_lines(rt, lock, store, job, round, control, gates, bell);
    bell.leave(rt);
    applied
}
