//! How threads of a round begin, or why one doesn't.
ghost use Rattle.std.specs.Prelude.{◌≡◌};

use crate::round_state::RoundName;
use std::marker::{Model, PhantomData};
use std::thread::{Promise, PromisedHandle, SpawnError};
use tc_base::{Ear, NoMemory};

/// The system made no thread. There is one only where a closure came back for which none was made.
#[derive(Drop)]
pub(crate) struct NoThread {
    of_spawn: (),
}

impl NoThread {
    /// That this closure could have no thread.
    pub(crate) fn of<F>(_refused: &SpawnError<F>) -> NoThread {
        NoThread { of_spawn: () }
    }
}

/// Why there is no thread.
#[derive(Drop)]
pub(crate) enum Alone {
    /// It would have nothing to do.
    Idle,
    Refused(NoThread),
}

/// That what comes back is the end of a control's thread: it was through, or found no memory.
#[derive(Drop)]
pub(crate) struct OfControl<N: RoundName, E: Ear> {
    pub control: u32,
    pub of: PhantomData<(N, E)>,
}

impl<N: RoundName, E: Ear> Promise<Result<(), NoMemory>> for OfControl<N, E> {
    ghost use Rattle.std.specs.Prelude.{OnOk};
    ghost use Rattle.job_rounds.specs.OfOneRound.Controls.{WasThrough};

    ghost kept_by = { λ p end. OnOk end (WasThrough E.name E.heard E.spare N.store N.job N.number N.before N.ear
        p.control) };
}

/// A control that has a thread; or that has none, since it had no line to meet, or the system refused one.
/// Contracts see its number.
#[derive(Drop)]
pub(crate) struct Begun<N: RoundName, E: Ear> {
    pub control: u32,
    pub thread: Result<PromisedHandle<Result<(), NoMemory>, OfControl<N, E>>, Alone>,
}

impl<N: RoundName, E: Ear> Model for Begun<N, E> {
    ghost use Rattle.std.specs.Prelude.{◌≡◌, ℕ, IfOk, IfErr};
    ghost use Rattle.job_rounds.specs.declared.one_round.begun.Alone.TheVariants.{Idle};
    ghost use Rattle.job_rounds.specs.OfOneRound.Controls.{WasThrough};

    ghost Value = { ℕ };

    ghost view = { λ b. b.control };

    ghost invariant = { λ b. IfOk b.thread (λ handle. handle.promise.control ≡ b.control)
        × IfErr b.thread (λ why. why ≡ Idle → WasThrough E.name E.heard E.spare N.store N.job N.number N.before
        N.ear b.control) };
}
