//! A control's turn, where the store allows one.
ghost use Rattle.std.specs.Prelude.{◌≡◌, ◌≤◌, ◌*◌, length, IfSome, IfNone};
ghost use Rattle.pin_store.specs.Calls.{sheet_of};
ghost use Rattle.round_terms.specs.Files.{files_of};
ghost use Rattle.job_rounds.specs.OfRoundState.Rounds.{store_name};
ghost use Rattle.job_rounds.specs.OfRoundState.Turns.{IsTurned};
ghost use Rattle.job_rounds.specs.OfOneRound.Rounds.{IsNamedRound};
ghost use Rattle.job_rounds.specs.OfOneRound.Controls.{HadLine, HasTurned, WasThrough};

use crate::round_state::{Desk, RoundName, RoundState, Turned};
use hook_store_law::HookStore;
use round_terms::LoadedJob;
use std::sync::Wait;
use tc_base::Ear;

// A line is tried only while fewer epochs began. One in each nanosecond would go on for 36 years.
pub const EPOCHS_MAX: u64 = 1 << 60;

// Waits for ever, at a desk that began as many epochs as 36 years of 365 days have nanoseconds.
fn wait_for_ever<R: Wait>(rt: &R, _desk: &Desk) -> !
    requires { 36 * 31536000000000000 ≤ (sheet_of _desk.now.place).epoch }
{
    for _ in rt.forever() {}
    unreachable!()
}

/// A turn, where few enough epochs began. Else it waits for ever.
pub(crate) fn turn_while<N: RoundName, E: Ear, R: Wait>(
    rt: &R,
    state: &mut RoundState<N, E>,
    store: &HookStore,
    job: &LoadedJob,
    round: u32,
    control: u32,
) -> Turned
    requires named { IsNamedRound N.store N.job N.number (length N.before) N.ear.spare (store_name store.now)
        job.now round }
    requires control { (1 ≤ control) × (control ≤ job.now.job.controls) }
    ensures turned { IsTurned E.name E.heard E.spare (files_of N.job N.number) N.number control state.old
        state.new result }
    ensures of_round { HasTurned E.name E.heard E.spare N.store N.job N.number N.before N.ear control result }
{
    state.attest();
    let desk = state.desk();
    if desk.epochs() >= EPOCHS_MAX {
        wait_for_ever(rt, desk);
    }
    let turned = state.turn(store, job, round, control);
    state.attest();
    turned
}

/// The number of a control's next line in a state of the round, where it has one left there.
pub(crate) fn line_in<N: RoundName, E: Ear>(
    state: &RoundState<N, E>,
    store: &HookStore,
    job: &LoadedJob,
    round: u32,
    control: u32,
) -> Option<u64>
    requires named { IsNamedRound N.store N.job N.number (length N.before) N.ear.spare (store_name store.now)
        job.now round }
    requires control { (1 ≤ control) × (control ≤ job.now.job.controls) }
    ensures some { IfSome result (HadLine E.name E.heard E.spare N.store N.job N.number N.before N.ear control) }
    ensures none { IfNone result (WasThrough E.name E.heard E.spare N.store N.job N.number N.before N.ear
        control) }
{
    let _words = store;
    state.attest();
    state.next_line(job, round, control)
}
