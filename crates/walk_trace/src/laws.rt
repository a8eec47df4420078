//! What the steps of a walk are.
ghost use Rattle.std.specs.Prelude.{◌≡◌, ℕ, List, [], Some, get_or};
ghost use Rattle.tc_base.specs.declared.hook.Hook.{Hook};
ghost use Rattle.filter_state.specs.States.{State};
ghost use Rattle.filter_state.specs.Sound.{Sound};
ghost use Rattle.walk_rules.specs.declared.limits.TheConstants.{VISITS_MAX};
ghost use Rattle.walk_rules.specs.Answers.{answer_of};
ghost use Rattle.walk_rules.specs.Plain.{plain_walk};
ghost use Rattle.walk_rules.specs.Steps.{begun};
ghost use Rattle.walk_rules.specs.Walks.{Outcome, IsWalk, outcome_of};
ghost use Rattle.walk_rules.specs.OfPoints.Points.{Visit, IsVisited};
ghost use Rattle.trace_lines.specs.Steps.{steps_of};
ghost use Rattle.walk_trace.specs.Traces.{stands_behind};
ghost use Rattle.walk_trace.specs.Visited.{AreVisits};

/// The steps at the points of a walk are its visits, and they end as it does.
pub fn steps_are_visits()
    ensures visits { (states : ℕ → State) (hook : Hook) (bytes points : List ℕ) (visits : List Visit)
        (outcome : Outcome) → IsWalk (IsVisited states) [] (begun hook bytes) points visits outcome
        → AreVisits (steps_of (λ point. answer_of (states point)) (λ visits. get_or points visits 0)
        VISITS_MAX (begun hook bytes)) visits }
    ensures outcome { (states : ℕ → State) (hook : Hook) (bytes points : List ℕ) (visits : List Visit)
        (outcome : Outcome) → IsWalk (IsVisited states) [] (begun hook bytes) points visits outcome
        → outcome_of (stands_behind (begun hook bytes) (steps_of (λ point. answer_of (states point))
        (λ visits. get_or points visits 0) VISITS_MAX (begun hook bytes))) ≡ Some outcome }
{}

/// Over one sound state the steps end with the plain walk.
pub fn one_state_traced()
    ensures { (s : State) (points : ℕ → ℕ) (hook : Hook) (bytes : List ℕ) → Sound s
        → outcome_of (stands_behind (begun hook bytes) (steps_of (λ _. answer_of s) points VISITS_MAX
        (begun hook bytes))) ≡ Some (plain_walk s hook bytes) }
{}
