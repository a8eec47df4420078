//! One visit more.
ghost use Rattle.std.specs.Prelude.{◌≡◌, ℕ, ◌≤◌, List, [], ◌∷◌, ◌++◌, slice_get, Some};
ghost use Rattle.walk_rules.specs.OfPoints.Points.{Visit, IsSameThing, AreLawfulPoints};

/// No visits have lawful points. With one visit more the points stay lawful, under a ceiling that may have
/// risen, where that visit's is within the ceiling, not below the head's, at least the floor if it is the
/// first, and not below an earlier one of the same mask or action.
pub fn points_go_on()
    ensures none { (floor ceiling : ℕ) → AreLawfulPoints floor ceiling [] }
    ensures more { (floor ceiling longer : ℕ) (visits : List Visit) (last : Visit)
        → AreLawfulPoints floor ceiling visits → ceiling ≤ longer → last.point ≤ longer
        → (visits ≡ [] → floor ≤ last.point)
        → ((first : Visit) → slice_get visits 0 ≡ Some first → first.point ≤ last.point)
        → ((place : ℕ) (early : Visit) → slice_get visits place ≡ Some early
        → IsSameThing early.question last.question → early.point ≤ last.point)
        → AreLawfulPoints floor longer (visits ++ last ∷ []) }
{}
