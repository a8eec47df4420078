//! The laws of the walk.
ghost use Rattle.std.specs.Prelude.{◌≡◌, ◌≤◌, ℕ, List, length};
ghost use Rattle.tc_base.specs.declared.hook.Hook.{Hook};
ghost use Rattle.filter_state.specs.States.{State};
ghost use Rattle.filter_state.specs.Order.{SameState};
ghost use Rattle.filter_state.specs.Sound.{Sound};
ghost use Rattle.walk_rules.specs.declared.limits.TheConstants.{VISITS_MAX};
ghost use Rattle.walk_rules.specs.Questions.{Question};
ghost use Rattle.walk_rules.specs.Answers.{answer_of};
ghost use Rattle.walk_rules.specs.Walks.{Outcome, IsWalkOver};
ghost use Rattle.walk_rules.specs.Plain.{plain_walk};

/// Over states and points a walk has one outcome at most, and makes 65,536 visits at most.
pub fn one_walk()
    ensures outcome { (states : ℕ → State) (hook : Hook) (bytes points : List ℕ) (one other : Outcome) →
        IsWalkOver states hook bytes points one → IsWalkOver states hook bytes points other → one ≡ other }
    ensures few { (states : ℕ → State) (hook : Hook) (bytes points : List ℕ) (outcome : Outcome) →
        IsWalkOver states hook bytes points outcome → length points ≤ VISITS_MAX }
{}

/// Over one sound state there is a walk, and each walk is the plain one.
pub fn one_state()
    ensures some { (s : State) (hook : Hook) (bytes : List ℕ) → Sound s → (points : List ℕ)
        × IsWalkOver (λ _. s) hook bytes points (plain_walk s hook bytes) }
    ensures plain { (s : State) (hook : Hook) (bytes points : List ℕ) (outcome : Outcome) → Sound s →
        IsWalkOver (λ _. s) hook bytes points outcome → outcome ≡ plain_walk s hook bytes }
{}

/// States that differ in the order between rows of different masks alone give the same answers, and where
/// they are sound the same plain walk.
pub fn order_is_free()
    ensures answer { (s t : State) (question : Question) → SameState s t
        → answer_of s question ≡ answer_of t question }
    ensures plain { (s t : State) (hook : Hook) (bytes : List ℕ) → Sound s → SameState s t
        → plain_walk s hook bytes ≡ plain_walk t hook bytes }
{}
