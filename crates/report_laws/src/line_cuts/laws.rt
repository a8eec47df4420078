//! What lines and numbers in texts are known by.
ghost use Rattle.std.specs.Prelude.{◌≡◌, ℕ, ◌<◌, ◌^◌, List, [], ◌∷◌, ◌++◌};
ghost use Rattle.std.specs.Fmt.{decimal};
ghost use Rattle.report_laws.specs.OfLineCuts.Cuts.{cut, AreLines, joined};
ghost use Rattle.report_laws.specs.OfLineCuts.Numbers.{Low, numbers_text, AreShort};

/// Lines that are joined are cut where they were joined.
pub fn whole_lines()
    ensures { (lines : List (List ℕ)) → AreLines lines → cut (joined lines) ≡ lines }
{}

/// Equal texts have equal numbers: a number and what follows it, and numbers behind blanks up to a line's
/// end.
pub fn ended_numbers()
    ensures one { (a b : ℕ) (x y : List ℕ) → a < 2 ^ 64 → b < 2 ^ 64 → Low x → Low y
        → decimal a ++ x ≡ decimal b ++ y → (a ≡ b) × (x ≡ y) }
    ensures many { (ms ns : List ℕ) → AreShort ms → AreShort ns
        → numbers_text ms ++ (10 ∷ []) ≡ numbers_text ns ++ (10 ∷ []) → ms ≡ ns }
{}
