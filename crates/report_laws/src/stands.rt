//! How lawful runs and their lines go together.
ghost use Rattle.std.specs.Prelude.{List, []};
ghost use Rattle.filter_state.specs.declared.edit.Edit.{Edit};
ghost use Rattle.run_report.specs.declared.record.RunRecord.{RunRecord};
ghost use Rattle.run_report.specs.Reports.{report_lines};
ghost use Rattle.lawful_runs.specs.declared.loaded.LoadedJob.{LoadedJob};
ghost use Rattle.lawful_runs.specs.Lawful.{IsRunWith};
ghost use Rattle.report_laws.specs.Stands.{start, closing, IsPath};

/// The lines of a lawful run are a path from before the first line to the end, where this run and its journal
/// stand.
pub fn runs_are_paths()
    ensures { (loaded : LoadedJob) (run : RunRecord) (journal : List Edit) → IsRunWith loaded run journal
        → IsPath loaded start (report_lines run) (closing run journal []) }
{}
