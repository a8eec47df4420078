//! The laws of the search, for any standings, questions and answers.
ghost use Rattle.std.specs.Prelude.{◌≡◌, ◌≢◌, ◌⊎◌, ◌≤◌, ℕ, Bool, true, List, [], ◌∷◌, length, suc};
ghost use Rattle.std.specs.Prelude.{Some, None};
ghost use Rattle.walk_fate_laws.specs.Firsts.{First, IsAmong};
ghost use Rattle.walk_fate_laws.specs.Order.{AreAtMost, IsNoLater};
ghost use Rattle.walk_fate_laws.specs.Games.{Game, IsExact, IsWalkFrom, IsNoHigher};
ghost use Rattle.walk_fate_laws.specs.Points.{Asked, AreBounded, AreLawful};
ghost use Rattle.walk_fate_laws.specs.Ways.{Way, branches, ways_from, AreRising, first_way};
ghost use Rattle.walk_fate_laws.specs.Turns.{Turn, standing_behind, bounds_behind, whole_way, ways_left};
ghost use Rattle.walk_fate_laws.specs.Turns.{ways_still};

/// Bounds below those of a walk leave it a walk.
pub fn least_suffices<S, Q, A>()
    ensures { (g : Game S Q A) (ceiling : ℕ) (st end : S) (low high : Q → ℕ) (points : List ℕ)
        (answers : List A) → IsNoHigher low high → IsWalkFrom g ceiling st high points answers end
        → IsWalkFrom g ceiling st low points answers end }
{}

/// The ways that are found are walks; and each walk has one with the same answers and the same end, whose
/// points are nowhere higher.
pub fn ways_are_all<S, Q, A>()
    ensures walks { (g : Game S Q A) (depth ceiling : ℕ) (st : S) (low : Q → ℕ) (way : Way S A)
        → IsAmong way (ways_from g ceiling depth st low)
        → IsWalkFrom g ceiling st low way.points way.answers way.end }
    ensures all { (g : Game S Q A) → IsExact g → (depth ceiling : ℕ) (st end : S) (low : Q → ℕ)
        (points : List ℕ) (answers : List A) → IsWalkFrom g ceiling st low points answers end
        → length points ≤ depth → (way : Way S A) × IsAmong way (ways_from g ceiling depth st low)
        × (way.answers ≡ answers) × (way.end ≡ end) × AreAtMost way.points points }
{}

/// No two ways have the same answers: each way is there once.
pub fn ways_differ<S, Q, A>()
    ensures { (g : Game S Q A) → IsExact g → (depth ceiling : ℕ) (st : S) (low : Q → ℕ) (one other : Way S A)
        → IsAmong one (ways_from g ceiling depth st low) → IsAmong other (ways_from g ceiling depth st low)
        → one.answers ≡ other.answers → one ≡ other }
{}

/// The ways stand in the order of their points; so the first with an end of some sort has the least points of
/// all walks with such an end.
pub fn first_is_least<S, Q, A>()
    ensures rise { (g : Game S Q A) (depth ceiling : ℕ) (st : S) (low : Q → ℕ)
        → AreRising (ways_from g ceiling depth st low) }
    ensures least { (g : Game S Q A) → IsExact g → (test : S → Bool) (depth ceiling : ℕ) (st end : S)
        (low : Q → ℕ) (points : List ℕ) (answers : List A)
        → IsWalkFrom g ceiling st low points answers end → length points ≤ depth → test end ≡ true
        → (way : Way S A) × (first_way test (ways_from g ceiling depth st low) ≡ Some way)
        × IsNoLater way.points points }
{}

/// Bounds that rise visit by visit say of the points what lawful points say of all places at once.
pub fn bounds_are_points<S, Q, A>()
    ensures lawful { (g : Game S Q A) (ceiling : ℕ) (low : Q → ℕ) (visits : List (Asked Q))
        → AreBounded g ceiling low visits → AreLawful g ceiling low visits }
    ensures bounded { (g : Game S Q A) (ceiling : ℕ) (low : Q → ℕ) (visits : List (Asked Q))
        → AreLawful g ceiling low visits → AreBounded g ceiling low visits }
{}

/// A branch stands at the bound of its question, or where the answer is another than just before: whoever
/// knows where answers change looks at no other points.
pub fn branches_are_changes<S, Q, A>()
    ensures { (g : Game S Q A) → IsExact g → (ceiling : ℕ) (low : Q → ℕ) (question : Q) (branch : First ℕ A)
        → IsAmong branch (branches g ceiling low question) → (branch.item ≡ low question) ⊎ ((before : ℕ)
        × (branch.item ≡ suc before) × (low question ≤ before)
        × (g.answer before question ≢ g.answer branch.item question)) }
{}

/// The ways one by one: by a question's first answer one goes down, with the other answers left; at an end
/// one way is told, and what is left goes on by the next answer of the last turn that has one.
pub fn ways_in_turn<S, Q, A>()
    ensures down { (g : Game S Q A) (ceiling : ℕ) (turns : List (Turn S Q A)) (turn : Turn S Q A)
        → g.question turn.before ≡ Some turn.question
        → branches g ceiling turn.low turn.question ≡ turn.branch ∷ turn.others
        → ways_still g ceiling turns (suc turn.depth) turn.before turn.low
        ≡ ways_still g ceiling (turn ∷ turns) turn.depth (standing_behind g turn turn.branch)
        (bounds_behind g turn turn.branch) }
    ensures end { (g : Game S Q A) (ceiling : ℕ) (turns : List (Turn S Q A)) (depth : ℕ) (st : S)
        (low : Q → ℕ) → g.question st ≡ None → ways_still g ceiling turns depth st low
        ≡ whole_way turns (record { points = []; answers = []; end = st }) ∷ ways_left g ceiling turns }
    ensures next { (g : Game S Q A) (ceiling : ℕ) (turns : List (Turn S Q A)) (turn : Turn S Q A)
        (branch : First ℕ A) (others : List (First ℕ A)) → turn.others ≡ branch ∷ others
        → ways_left g ceiling (turn ∷ turns)
        ≡ ways_still g ceiling (record turn { branch = branch; others = others } ∷ turns) turn.depth
        (standing_behind g turn branch) (bounds_behind g turn branch) }
    ensures back { (g : Game S Q A) (ceiling : ℕ) (turns : List (Turn S Q A)) (turn : Turn S Q A)
        → turn.others ≡ [] → ways_left g ceiling (turn ∷ turns) ≡ ways_left g ceiling turns }
{}
