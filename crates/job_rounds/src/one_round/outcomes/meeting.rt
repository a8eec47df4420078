//! The desk meets the readers of a round's workers.
ghost use Rattle.std.specs.Prelude.{◌≡◌, All};
ghost use Rattle.std.specs.List.{AllZip};
ghost use mathlib.Core.List.{IsPrefix};
ghost use Rattle.pin_store.specs.Calls.{seen_by, IsSeatOf};
ghost use Rattle.worker_rounds.specs.OfWalks.Walked.{journal_of};
ghost use Rattle.job_rounds.specs.OfRoundState.Views.{journal};
ghost use Rattle.job_rounds.specs.OfOneRound.OfOutcomes.Met.{IsSameDesk, IsSameWorker};

use crate::round_state::Desk;
use hook_store_law::HookStore;
use worker_rounds::Worker;

// Meets the reader of one worker.
fn meet_one(store: &HookStore, desk: &mut Desk, worker: &mut Worker)
    requires desk { IsSeatOf store.now desk.old.place }
    requires reader { IsSeatOf store.now worker.old.reader.place }
    ensures desk { IsSeatOf store.now desk.new.place }
    ensures reader { IsSeatOf store.now worker.new.reader.place }
    ensures same_desk { IsSameDesk desk.old desk.new }
    ensures same_worker { IsSameWorker worker.old worker.new }
    ensures met { IsPrefix (seen_by worker.old.reader.place) (seen_by desk.old.place) }
{
    desk.meet(store, &mut worker.reader);
}

/// The desk learns of each worker's reader that what it has seen is a beginning of all commits, and so its
/// journal a beginning of the desk's. Nothing else changes, of the desk and of the workers.
pub fn meet_all(store: &HookStore, desk: &mut Desk, workers: &mut [Worker])
    requires desk { IsSeatOf store.now desk.old.place }
    requires readers { All (λ worker. IsSeatOf store.now worker.reader.place) workers.old }
    ensures desk { IsSeatOf store.now desk.new.place }
    ensures readers { All (λ worker. IsSeatOf store.now worker.reader.place) workers.new }
    ensures same_desk { IsSameDesk desk.old desk.new }
    ensures same_workers { AllZip IsSameWorker workers.old workers.new }
    ensures seen { All (λ worker. IsPrefix (seen_by worker.reader.place) (seen_by desk.old.place))
        workers.old }
    ensures met { All (λ worker. IsPrefix (journal_of worker.reader) (journal desk.old)) workers.old }
{
    for worker in workers.iter_mut() {
        meet_one(store, desk, worker);
    }
}
