//! What paths of lines come to.
ghost use Rattle.std.specs.Prelude.{◌≡◌, ℕ, ◌<◌, ◌^◌, ◌+◌, List, [], ◌∷◌, ◌++◌, length};
ghost use Rattle.filter_state.specs.declared.edit.Edit.{Edit};
ghost use Rattle.run_report.specs.declared.record.RunRecord.{RunRecord};
ghost use Rattle.run_report.specs.Reports.{report_lines};
ghost use Rattle.lawful_runs.specs.declared.loaded.LoadedJob.{LoadedJob};
ghost use Rattle.lawful_runs.specs.Given.{IsLoaded};
ghost use Rattle.lawful_runs.specs.Lawful.{IsRunWith, IsLawfulReport};
ghost use Rattle.report_laws.specs.OfLineCuts.Cuts.{cut};
ghost use Rattle.report_laws.specs.Stands.{Stand, start, closing, IsPath, journal_length};
ghost use Rattle.report_laws.specs.OfWholePaths.FirstBadLines.{IsFirstBadLine, TakesNone, IsOpen};

/// A path to the end has the lines of a lawful run, and every path goes on to the end.
pub fn ends_of_paths()
    ensures run { (loaded : LoadedJob) (run : RunRecord) (journal : List Edit) (lines : List (List ℕ))
        → IsPath loaded start lines (closing run journal [])
        → IsRunWith loaded run journal × (lines ≡ report_lines run) }
    ensures completion { (loaded : LoadedJob) (stand : Stand) (lines : List (List ℕ)) → IsLoaded loaded
        → IsPath loaded start lines stand
        → (more : List (List ℕ)) × (run : RunRecord) × (journal : List Edit)
        × IsPath loaded stand more (closing run journal []) }
{}

/// A path of all lines to the end is a lawful report. Where a path gets stuck is the first bad line: at a
/// line that may not come, or behind the last line.
pub fn the_first_bad_line()
    ensures lawful { (loaded : LoadedJob) (bytes : List ℕ) (run : RunRecord) (journal : List Edit)
        → IsPath loaded start (cut bytes) (closing run journal []) → IsLawfulReport loaded bytes }
    ensures bad { (loaded : LoadedJob) (bytes : List ℕ) (stand : Stand) (lines rest : List (List ℕ))
        (line : List ℕ) → IsLoaded loaded → cut bytes ≡ lines ++ (line ∷ rest)
        → IsPath loaded start lines stand → journal_length stand < 2 ^ 64 → TakesNone loaded stand line
        → IsFirstBadLine loaded bytes (length lines + 1) }
    ensures short { (loaded : LoadedJob) (bytes : List ℕ) (stand : Stand) → IsLoaded loaded
        → IsPath loaded start (cut bytes) stand → journal_length stand < 2 ^ 64 → IsOpen stand
        → IsFirstBadLine loaded bytes (length (cut bytes) + 1) }
{}
