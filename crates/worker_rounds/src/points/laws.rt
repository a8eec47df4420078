//! Visit by visit.
ghost use Rattle.std.specs.Prelude.{◌≡◌, ℕ, ◌≤◌, List, [], ◌∷◌, ◌++◌, slice_get, Some, None};
ghost use Rattle.tc_base.specs.declared.hook.Hook.{Hook};
ghost use Rattle.walk_rules.specs.Questions.{Question, heads_of, Answer};
ghost use Rattle.hook_reader.specs.Seats.{HookSeat};
ghost use Rattle.hook_reader.specs.Told.{WalkTold};
ghost use Rattle.walk_rules.specs.OfPoints.Points.{Visit, IsSameThing};
ghost use Rattle.worker_rounds.specs.OfPoints.Walked.{HaveOneHead, HasVisited};

/// As a walk begins, none was made. After each visit there is one more.
pub fn visits_follow()
    ensures none { (r : HookSeat) → r.head ≡ None → HasVisited r [] }
    ensures more { (old new : HookSeat) (visits : List Visit) (question : Question) (answer : Answer)
        (point : ℕ)
        → HasVisited old visits → WalkTold old question answer point new
        → HasVisited new (visits ++ (record { question = question; point = point } ∷ [])) }
{}

/// A head's point is no less than any that the reader had seen. No other is less than the first head's. For
/// one mask or one action points never fall, where the walk has asked for the tables once.
pub fn points_never_fall()
    ensures head { (old new : HookSeat) (hook : Hook) (answer : Answer) (point : ℕ)
        → WalkTold old (heads_of hook) answer point new → old.latest ≤ point }
    ensures above { (old new : HookSeat) (visits : List Visit) (question : Question) (answer : Answer)
        (point : ℕ) (first : Visit)
        → HasVisited old visits → WalkTold old question answer point new
        → slice_get visits 0 ≡ Some first → first.point ≤ point }
    ensures thing { (old new : HookSeat) (visits : List Visit) (question : Question) (answer : Answer)
        (point place : ℕ) (early : Visit)
        → HasVisited old visits → WalkTold old question answer point new → HaveOneHead visits
        → slice_get visits place ≡ Some early → IsSameThing early.question question
        → early.point ≤ point }
{}
