//! A job that applies a batch and then replays a capture comes to what `walk` comes to.
//!
//! In its first round one control applies a batch that isn't forced, and no packet comes; in its second the
//! packets of one capture come, and no control applies anything (`specs/OfQuietJobs/Jobs.antt`). Threads run
//! each round as they like, and yet all lawful runs of such a job tell one thing. With one control there is
//! one order of lines, which stops at the first that isn't accepted, as a batch does that is run alone
//! (`batch_run`). And in a round that accepts no edit a walk finds one state at all its visits, whichever
//! worker makes it: it is the plain walk. So the run leaves the same packets and the same counts as `walk`
//! over the same batch and capture (`specs/OfQuietJobs/Ends.antt`), whose text ends with the same lines as
//! the run's report. `gen` runs such a job.
//!
//! A law only: there is nothing here to call at run time, so any thread may call it.
//!
//! Not promised: which worker walked which packet.
ghost use Rattle.std.specs.Prelude.{ℕ, List};
ghost use Rattle.tc_base.specs.declared.hook.Hook.{Hook};
ghost use Rattle.pcap_io.specs.declared.capture.Capture.{Capture};
ghost use Rattle.filter_state.specs.States.{no_state};
ghost use Rattle.job_lines.specs.Jobs.{IsJob};
ghost use Rattle.batch_run.specs.Commands.{Command};
ghost use Rattle.batch_run.specs.Runs.{Ran, IsRun};
ghost use Rattle.run_report.specs.declared.record.RunRecord.{RunRecord};
ghost use Rattle.lawful_runs.specs.declared.loaded.LoadedJob.{LoadedJob};
ghost use Rattle.lawful_runs.specs.Lawful.{IsLawfulRun};
ghost use Rattle.tool_run.specs.OfQuietJobs.Jobs.{IsBatchThenCapture};
ghost use Rattle.tool_run.specs.OfQuietJobs.Ends.{ComesToWalk};

/// Each lawful run of a job that applies a batch and then replays a capture comes to what `walk` comes to for
/// the batch and the capture.
pub fn a_batch_then_a_capture()
    ensures { (loaded : LoadedJob) (run : RunRecord) (control : ℕ) (commands : List Command) (hook : Hook)
        (capture : Capture) → IsJob loaded.job → IsBatchThenCapture loaded control commands hook capture
        → IsLawfulRun loaded run
        → (ran : Ran) × IsRun no_state 0 commands ran × ComesToWalk ran hook capture run }
{}
