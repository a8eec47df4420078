//! A run on its way.
ghost use Rattle.std.specs.Prelude.{◌≡◌, ◌+◌, ◌++◌, ◌∷◌, ℕ, [], IfOk};
ghost use Rattle.job_rounds.specs.SoFar.{HasRoom};

use crate::one_round::RoundEnd;
use crate::round_state::Desk;
use round_terms::MadeAction;
use run_report::RoundRecord;
use std::alloc::Global;
use tc_base::{Ear, NoMemory};
use worker_rounds::Worker;

/// What is kept of the rounds that are over.
#[derive(Drop)]
pub(crate) struct Past {
    pub rounds: Vec<RoundRecord>,
    /// The actions that each of them made.
    pub made: Vec<Vec<MadeAction>>,
}

/// A run behind some of its rounds.
#[derive(Drop)]
pub(crate) struct Course<E: Ear> {
    pub desk: Desk,
    pub ear: E,
    /// By rising number.
    pub workers: Vec<Worker>,
    pub past: Past,
    /// How many captures the job names in these rounds.
    pub captures: usize,
}

/// No round yet, with room for so many.
pub(crate) fn nothing_past(alloc: Global, rounds: usize) -> Result<Past, NoMemory>
    ensures none { IfOk result (λ past. (past.rounds.items ≡ []) × (past.made.items ≡ [])) }
    ensures room { IfOk result (HasRoom rounds) }
{
    Ok(Past {
        rounds: Vec::with_capacity(alloc, rounds)?,
        made: Vec::with_capacity(alloc, rounds)?,
    })
}

/// The run behind one round more.
pub(crate) fn behind<E: Ear>(end: RoundEnd<E>, mut past: Past, captures: usize) -> Course<E>
    requires { HasRoom 1 past }
    ensures now { (result.desk ≡ end.desk) × (result.ear ≡ end.ear) × (result.workers ≡ end.workers)
        × (result.captures ≡ captures) }
    ensures rounds { result.past.rounds.items ≡ past.rounds.items ++ end.round ∷ [] }
    ensures made { result.past.made.items ≡ past.made.items ++ end.made ∷ [] }
    ensures room { (more : ℕ) → HasRoom (more + 1) past → HasRoom more result.past }
{
    let RoundEnd {
        desk,
        ear,
        workers,
        round,
        made,
    } = end;
    past.rounds.push_reserved(round);
    past.made.push_reserved(made);
    Course {
        desk,
        ear,
        workers,
        past,
        captures,
    }
}
