//! The record of a walk.
ghost use Rattle.std.specs.Prelude.{◌≡◌, Some};
ghost use Rattle.walk_rules.specs.Walks.{Outcome as WalkOutcome, outcome_of};
ghost use Rattle.run_report.specs.Kept.{outcome_seen};
ghost use Rattle.lawful_runs.specs.Outcomes.{IsRecordOf};

use run_report::OutcomeView;
use walk_steps::Walk;

/// What a walk that has ended came to, for the worker that walked it. Nothing is copied.
pub(crate) fn recorded(walk: &Walk, worker: u32) -> OutcomeView<'_>
    ensures recorded { (ended : WalkOutcome) → outcome_of walk.now.standing ≡ Some ended
        → IsRecordOf (outcome_seen result) ended }
    ensures points { result.points.now ≡ walk.now.points }
    ensures worker { result.worker ≡ worker }
{
    let frame = walk.frame();
    OutcomeView {
        worker,
        verdict: walk.verdict(),
        bytes: frame.bytes(),
        meta: frame.meta(),
        points: walk.points(),
        executed: walk.executed(),
    }
}
