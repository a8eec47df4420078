//! What a report's trace is of.
ghost use Rattle.std.specs.Prelude.{◌≡◌, ◌+◌, ◌++◌, List, ℕ, Some, max, take, slice_get};
ghost use Rattle.filter_state.specs.declared.edit.Edit.{Edit};
ghost use Rattle.run_report.specs.declared.outcomes.Outcome.{Outcome};
ghost use Rattle.run_report.specs.declared.rounds.RoundRecord.{RoundRecord};
ghost use Rattle.run_report.specs.declared.record.RunRecord.{RunRecord};
ghost use Rattle.run_report.specs.Counts.{edits_in};
ghost use Rattle.run_report.specs.Reports.{report_text};
ghost use Rattle.lawful_runs.specs.declared.loaded.LoadedJob.{LoadedJob};
ghost use Rattle.lawful_runs.specs.Given.{IsLoaded, Arrival, GivenRound, given_rounds};
ghost use Rattle.lawful_runs.specs.Points.{seen_by};
ghost use Rattle.lawful_runs.specs.Lawful.{IsRunWith, outcomes_in};
ghost use Rattle.batch_trace.specs.Traced.{own_in};
ghost use Rattle.batch_trace.specs.Untold.{without_told};
ghost use Rattle.report_trace.specs.Traced.{entries_in, trace_parts, IsTraceOf};
ghost use Rattle.report_trace.specs.Visited.{IsToldAsWalked};

/// A trace without the parts that it tells beside is the report. They can be told by the bytes alone: it is
/// what is left without the lines that begin with `at ` and `decided `.
pub fn nothing_else_is_told()
    ensures parts { (loaded : LoadedJob) (run : RunRecord) (journal : List Edit) → IsRunWith loaded run journal
        → own_in (trace_parts loaded run (entries_in run journal)) ≡ report_text run }
    ensures lines { (loaded : LoadedJob) (report text : List ℕ) → IsTraceOf loaded report text
        → without_told text ≡ report }
{}

/// Of each packet of a lawful run a walk makes the record lawful, over the journal of the whole run: not
/// before the edits that were accepted in earlier rounds, nor before what its worker had seen, and not past
/// the edits that were accepted by the round's end. The steps that are told of the packet are the visits of
/// that walk, in order, and end as it does.
pub fn steps_are_lawful_visits()
    ensures { (loaded : LoadedJob) (run : RunRecord) (journal : List Edit) (round place : ℕ)
        (given : GivenRound) (it : RoundRecord) (arrival : Arrival) (outcome : Outcome) →
        IsRunWith loaded run journal → slice_get (given_rounds loaded) round ≡ Some given
        → slice_get run.rounds round ≡ Some it
        → slice_get given.arrivals place ≡ Some arrival → slice_get it.outcomes place ≡ Some outcome
        → IsToldAsWalked (entries_in run journal) journal
        (max (edits_in (take round run.rounds))
        (seen_by outcome.worker (outcomes_in (take round run.rounds) ++ take place it.outcomes)))
        (edits_in (take (round + 1) run.rounds)) arrival outcome }
{}

/// A report has one trace at most.
pub fn one_trace()
    ensures { (loaded : LoadedJob) (report one other : List ℕ) → IsLoaded loaded
        → IsTraceOf loaded report one → IsTraceOf loaded report other → one ≡ other }
{}
