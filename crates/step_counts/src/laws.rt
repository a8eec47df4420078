//! What drawn numbers come to.
ghost use Rattle.std.specs.Prelude.{◌≡◌, ℕ, ◌+◌, List, [], ◌∷◌, ◌++◌, sum_by};
ghost use Rattle.std.specs.List.{AllByRecursion};
ghost use Rattle.step_counts.specs.Claims.{HasEachBelow};
ghost use Rattle.step_counts.specs.Drawn.{Drawn, IsDrawnTo, numbers_in, deeds_in, sum_to};

/// Where each thread stopped at its first number past a bound, every seat was given back, and one number more
/// was drawn: the threads' numbers below the bound are all that there are, each once. So one draw after the
/// join tells that no number was left out.
pub fn each_number_once()
    ensures { (bound last : ℕ) (first : Drawn) (others : List Drawn)
        → AllByRecursion (IsDrawnTo bound) (first ∷ others)
        → HasEachBelow (last + 1) (deeds_in (first ∷ others) ++ last ∷ [])
        → HasEachBelow bound (numbers_in (first ∷ others)) }
{}

/// A sum over numbers that are those below a bound, each once, is the sum over the numbers below the bound,
/// in whatever order they were drawn.
pub fn sums_over_numbers()
    ensures { (weight : ℕ → ℕ) (bound : ℕ) (numbers : List ℕ) → HasEachBelow bound numbers
        → sum_by weight numbers ≡ sum_to weight bound }
{}
