//! What the text of a report tells.
ghost use Rattle.std.specs.Prelude.{◌≡◌, ℕ, ◌<◌, ◌≤◌, ◌^◌, List};
ghost use Rattle.run_report.specs.declared.record.RunRecord.{RunRecord};
ghost use Rattle.batch_run.specs.declared.limit.TheConstants.{COMMANDS_MAX};
ghost use Rattle.walk_ends.specs.declared.limits.TheConstants.{PACKETS_MAX};
ghost use Rattle.run_report.specs.Counts.{events_in, packets_in};
ghost use Rattle.run_report.specs.Reports.{report_lines, report_text};
ghost use Rattle.lawful_runs.specs.declared.loaded.LoadedJob.{LoadedJob};
ghost use Rattle.lawful_runs.specs.Given.{IsLoaded};
ghost use Rattle.lawful_runs.specs.Lawful.{IsLawfulRun};
ghost use Rattle.report_laws.specs.OfLineCuts.Cuts.{AreLines};
ghost use Rattle.report_laws.specs.Stands.{Stand, Takes, journal_length};

/// Two lawful runs of a job with the same report are one run, in all that is recorded of them.
pub fn one_run_of_each_report()
    ensures { (loaded : LoadedJob) (one other : RunRecord) → IsLoaded loaded
        → IsLawfulRun loaded one → IsLawfulRun loaded other
        → report_text one ≡ report_text other → one ≡ other }
{}

/// A line leads to one stand, as long as fewer edits were accepted than a number of 64 bits counts.
pub fn one_stand()
    ensures { (loaded : LoadedJob) (stand one other : Stand) (line : List ℕ) → IsLoaded loaded
        → journal_length stand < 2 ^ 64
        → Takes loaded stand line one → Takes loaded stand line other → one ≡ other }
{}

/// Each line of a report, of any run, has its one end at its last byte.
pub fn lines_of_reports()
    ensures { (run : RunRecord) → AreLines (report_lines run) }
{}

/// Each loaded job has a lawful run. So what is said of all lawful runs of a job is never said of none.
pub fn each_job_has_a_run()
    ensures { (loaded : LoadedJob) → IsLoaded loaded → (run : RunRecord) × IsLawfulRun loaded run }
{}

/// A lawful run of a loaded job has no more events than a job has commands at most, and no more outcomes than
/// a job has packets at most. So whoever counts them never passes what a number of 32 bits holds.
pub fn runs_are_short()
    ensures events { (loaded : LoadedJob) (run : RunRecord) → IsLoaded loaded → IsLawfulRun loaded run
        → events_in run.rounds ≤ COMMANDS_MAX }
    ensures packets { (loaded : LoadedJob) (run : RunRecord) → IsLoaded loaded → IsLawfulRun loaded run
        → packets_in run.rounds ≤ PACKETS_MAX }
{}
