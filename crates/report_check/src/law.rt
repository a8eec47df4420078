//! That a report has one answer.
ghost use Rattle.std.specs.Prelude.{◌≡◌, ℕ, List};
ghost use Rattle.lawful_runs.specs.declared.loaded.LoadedJob.{LoadedJob};
ghost use Rattle.report_check.specs.declared.check.Check.{Check};
ghost use Rattle.lawful_runs.specs.Given.{IsLoaded};
ghost use Rattle.report_check.specs.Checks.{IsCheckOf};

/// Bytes have at most one answer: they aren't lawful and unlawful at once, and the first bad line is one,
/// with one reason.
pub fn one_check()
    ensures { (loaded : LoadedJob) (bytes : List ℕ) (one other : Check) → IsLoaded loaded
        → IsCheckOf loaded bytes one → IsCheckOf loaded bytes other → one ≡ other }
{}
