//! The walks of a lawful run, as functions of their points.
ghost use Rattle.std.specs.Prelude.{◌≡◌, ℕ, List, ◌∷◌};
ghost use Rattle.tc_base.specs.declared.hook.Hook.{Hook};
ghost use Rattle.filter_state.specs.declared.edit.Edit.{Edit};
ghost use Rattle.walk_rules.specs.Steps.{begun};
ghost use Rattle.walk_rules.specs.Walks.{Outcome as WalkOutcome};
ghost use Rattle.run_report.specs.declared.outcomes.Outcome.{Outcome};
ghost use Rattle.lawful_runs.specs.Given.{Arrival};
ghost use Rattle.lawful_runs.specs.Outcomes.{IsWalked};
ghost use Rattle.point_walks.specs.Over.{Answering, stands_after};
ghost use Rattle.point_walks.specs.Visits.{visits_over};
ghost use Rattle.report_laws.specs.OfNextLines.Walks.{answers_of, recorded_by, WalksAt, AgreesFrom};

/// A packet's walk is the walk at its points.
pub fn walks_at_points()
    ensures is { (journal : List Edit) (floor ceiling worker : ℕ) (arrival : Arrival) (points : List ℕ)
        (walk : WalkOutcome) → WalksAt journal floor ceiling arrival points walk
        → IsWalked journal floor ceiling arrival (recorded_by worker points walk) }
    ensures only { (journal : List Edit) (floor ceiling : ℕ) (arrival : Arrival) (outcome : Outcome)
        → IsWalked journal floor ceiling arrival outcome
        → (walk : WalkOutcome) × WalksAt journal floor ceiling arrival outcome.points walk
        × (outcome ≡ recorded_by outcome.worker outcome.points walk) }
{}

/// A walk asks for the tables once: whoever tells them at the walk's first point alone takes it to the same
/// end, by the same visits.
pub fn head_once()
    ensures end { (answers : Answering) (journal : List Edit) (hook : Hook) (first : ℕ)
        → AgreesFrom answers journal hook first → (bytes points : List ℕ)
        → stands_after answers (begun hook bytes) (first ∷ points)
        ≡ stands_after (answers_of journal) (begun hook bytes) (first ∷ points) }
    ensures visits { (answers : Answering) (journal : List Edit) (hook : Hook) (first : ℕ)
        → AgreesFrom answers journal hook first → (bytes points : List ℕ)
        → visits_over answers (begun hook bytes) (first ∷ points)
        ≡ visits_over (answers_of journal) (begun hook bytes) (first ∷ points) }
{}
