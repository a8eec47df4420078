//! What is done between two rounds.
ghost use Rattle.std.specs.Prelude.{◌≡◌, All, length};
ghost use Rattle.pin_store.specs.Calls.{IsSeatOf};
ghost use Rattle.job_rounds.specs.OfRoundState.Views.{journal};
ghost use Rattle.job_rounds.specs.OfRoundState.Rounds.{store_name};
ghost use Rattle.job_rounds.specs.Taught.{IsAway, IsTaught, AreTaught};
ghost use Rattle.job_rounds.specs.Tidied.{IsReadied};

use crate::one_round::EPOCHS_MAX;
use crate::round_state::Desk;
use hook_store_law::HookStore;
use worker_rounds::Worker;

// Lets a worker see what the desk has seen.
fn teach(store: &HookStore, desk: &mut Desk, worker: &mut Worker)
    requires desk { IsSeatOf store.now desk.old.place }
    requires away { IsAway (store_name store.now) worker.old }
    ensures desk { IsSeatOf store.now desk.new.place }
    ensures journal { journal desk.new ≡ journal desk.old }
    ensures same { (desk.new.place.me ≡ desk.old.place.me) × (desk.new.left ≡ desk.old.left) }
    ensures taught { IsTaught (store_name store.now) (length (journal desk.old)) worker.old worker.new }
{
    let receipt = desk.receipt(store);
    worker.reader.learn(store, receipt);
}

// Lets each worker see what the desk has seen.
fn teach_all(store: &HookStore, desk: &mut Desk, workers: &mut [Worker])
    requires desk { IsSeatOf store.now desk.old.place }
    requires away { All (IsAway (store_name store.now)) workers.old }
    ensures desk { IsSeatOf store.now desk.new.place }
    ensures journal { journal desk.new ≡ journal desk.old }
    ensures same { (desk.new.place.me ≡ desk.old.place.me) × (desk.new.left ≡ desk.old.left) }
    ensures taught { AreTaught (store_name store.now) (length (journal desk.old)) workers.old workers.new }
{
    for worker in workers.iter_mut() {
        teach(store, desk, worker);
    }
}

// Frees what has left, unless the desk has begun so many epochs that it is left as it is.
fn tidy(store: &HookStore, desk: &mut Desk)
    requires desk { IsSeatOf store.now desk.old.place }
    ensures desk { IsSeatOf store.now desk.new.place }
    ensures journal { journal desk.new ≡ journal desk.old }
    ensures tidied { IsReadied desk.new }
{
    if desk.epochs() < EPOCHS_MAX {
        desk.tidy(store);
    }
}

/// Tidies the desk, and lets each worker see what it has seen. No walk may run.
pub(crate) fn make_ready(store: &HookStore, desk: &mut Desk, workers: &mut [Worker])
    requires desk { IsSeatOf store.now desk.old.place }
    requires away { All (IsAway (store_name store.now)) workers.old }
    ensures desk { IsSeatOf store.now desk.new.place }
    ensures journal { journal desk.new ≡ journal desk.old }
    ensures tidied { IsReadied desk.new }
    ensures taught { AreTaught (store_name store.now) (length (journal desk.old)) workers.old workers.new }
{
    tidy(store, desk);
    teach_all(store, desk, workers);
}
