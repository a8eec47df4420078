//! What follows for a lawful run.
ghost use Rattle.std.specs.Prelude.{◌≡◌, ◌+◌, ◌<◌, ◌≤◌, ℕ, List, [], ◌++◌, length, map, max, take, slice_get};
ghost use Rattle.std.specs.Prelude.{Some};
ghost use Rattle.std.specs.List.{range_with_len};
ghost use Rattle.filter_state.specs.declared.edit.Edit.{Edit};
ghost use Rattle.filter_state.specs.States.{no_state};
ghost use Rattle.filter_state.specs.Journals.{state_at, state_from, IsLawful};
ghost use Rattle.walk_rules.specs.Walks.{Outcome as WalkOutcome, IsWalkOver};
ghost use Rattle.walk_rules.specs.Plain.{plain_walk};
ghost use Rattle.run_report.specs.declared.counters.CounterLine.{CounterLine};
ghost use Rattle.run_report.specs.declared.events.Event.{Event};
ghost use Rattle.run_report.specs.declared.outcomes.Outcome.{Outcome};
ghost use Rattle.run_report.specs.declared.record.RunRecord.{RunRecord};
ghost use Rattle.run_report.specs.declared.rounds.RoundRecord.{RoundRecord};
ghost use Rattle.job_lines.specs.Jobs.{IsJob};
ghost use Rattle.run_report.specs.Counts.{accepted_count, edits_in};
ghost use Rattle.run_report.specs.Reports.{report_text};
ghost use Rattle.lawful_runs.specs.declared.loaded.LoadedJob.{LoadedJob};
ghost use Rattle.lawful_runs.specs.Given.{Arrival, GivenRound, given_rounds};
ghost use Rattle.lawful_runs.specs.Events.{IsMetAt};
ghost use Rattle.lawful_runs.specs.Points.{seen_by};
ghost use Rattle.lawful_runs.specs.Outcomes.{IsRecordOf, IsWalked};
ghost use Rattle.lawful_runs.specs.Lawful.{IsRunWith, IsLawfulRun, IsLawfulReport, outcomes_in};

/// The text that `write_report` writes of a lawful run is a lawful report.
pub fn reports_of_runs()
    ensures { (loaded : LoadedJob) (run : RunRecord) (bytes : List ℕ) → IsLawfulRun loaded run
        → bytes ≡ report_text run → IsLawfulReport loaded bytes }
{}

/// The journal has each accepted edit once: it is lawful, and as long as accepted edits are printed. A run of
/// a job has no other.
pub fn one_journal()
    ensures lawful { (loaded : LoadedJob) (run : RunRecord) (journal : List Edit)
        → IsRunWith loaded run journal → IsLawful journal }
    ensures each_once { (loaded : LoadedJob) (run : RunRecord) (journal : List Edit)
        → IsRunWith loaded run journal → length journal ≡ edits_in run.rounds }
    ensures one { (loaded : LoadedJob) (run : RunRecord) (journal other : List Edit) → IsJob loaded.job
        → IsRunWith loaded run journal → IsRunWith loaded run other → journal ≡ other }
{}

/// Each event of a run has its line's result on the state after all edits that were accepted before it, and
/// an accepted one has its edit in the journal right behind those: at the number under which it is printed.
pub fn each_line_has_its_result()
    ensures { (loaded : LoadedJob) (run : RunRecord) (journal : List Edit) (round place : ℕ)
        (given : GivenRound) (it : RoundRecord) (event : Event) →
        IsRunWith loaded run journal → slice_get (given_rounds loaded) round ≡ Some given
        → slice_get run.rounds round ≡ Some it → slice_get it.events place ≡ Some event
        → IsMetAt journal (edits_in (take round run.rounds) + accepted_count (take place it.events))
        given.batches event }
{}

/// Each packet of a round is walked over the journal of the whole run: not before the edits that were
/// accepted in earlier rounds, nor before what its worker had seen, and not past the edits that were accepted
/// by the round's end. In a round in which no edit was accepted it is the plain walk of one state.
pub fn each_packet_is_walked()
    ensures walked { (loaded : LoadedJob) (run : RunRecord) (journal : List Edit) (round place : ℕ)
        (given : GivenRound) (it : RoundRecord) (arrival : Arrival) (outcome : Outcome) →
        IsRunWith loaded run journal → slice_get (given_rounds loaded) round ≡ Some given
        → slice_get run.rounds round ≡ Some it
        → slice_get given.arrivals place ≡ Some arrival → slice_get it.outcomes place ≡ Some outcome
        → IsWalked journal
        (max (edits_in (take round run.rounds))
        (seen_by outcome.worker (outcomes_in (take round run.rounds) ++ take place it.outcomes)))
        (edits_in (take (round + 1) run.rounds)) arrival outcome }
    ensures quiet { (loaded : LoadedJob) (run : RunRecord) (journal : List Edit) (round place : ℕ)
        (given : GivenRound) (it : RoundRecord) (arrival : Arrival) (outcome : Outcome) →
        IsRunWith loaded run journal → slice_get (given_rounds loaded) round ≡ Some given
        → slice_get run.rounds round ≡ Some it
        → slice_get given.arrivals place ≡ Some arrival → slice_get it.outcomes place ≡ Some outcome
        → accepted_count it.events ≡ 0
        → IsRecordOf outcome
        (plain_walk (state_at (edits_in (take round run.rounds)) journal) arrival.hook arrival.packet.bytes) }
{}

/// The walk of a packet is one over the states of the journal. Where all its visits may have one point alone,
/// as in a round in which no edit was accepted, it is the plain walk of that state.
pub fn walks_over_one_journal()
    ensures over { (journal : List Edit) (floor ceiling : ℕ) (arrival : Arrival) (outcome : Outcome)
        → IsWalked journal floor ceiling arrival outcome
        → (walk : WalkOutcome) × IsRecordOf outcome walk
        × IsWalkOver (λ point. state_at point journal) arrival.hook arrival.packet.bytes outcome.points walk }
    ensures plain { (journal : List Edit) (point : ℕ) (arrival : Arrival) (outcome : Outcome)
        → IsLawful journal → IsWalked journal point point arrival outcome
        → IsRecordOf outcome (plain_walk (state_at point journal) arrival.hook arrival.packet.bytes) }
    ensures equal { (journal : List Edit) (floor ceiling point : ℕ) (arrival : Arrival) (outcome : Outcome)
        → IsLawful journal → IsWalked journal floor ceiling arrival outcome
        → ((place p : ℕ) → slice_get outcome.points place ≡ Some p → p ≡ point)
        → IsRecordOf outcome (plain_walk (state_at point journal) arrival.hook arrival.packet.bytes) }
{}

/// No point is past the journal's end.
pub fn points_are_of_the_journal()
    ensures { (loaded : LoadedJob) (run : RunRecord) (journal : List Edit) (place visit point : ℕ)
        (outcome : Outcome) → IsRunWith loaded run journal
        → slice_get (outcomes_in run.rounds) place ≡ Some outcome → slice_get outcome.points visit
        ≡ Some point → point ≤ length journal }
{}

/// No walk has a point before one that its worker saw in an earlier walk, of the same round or of another.
pub fn workers_go_forward()
    ensures { (loaded : LoadedJob) (run : RunRecord) (journal : List Edit)
        (early late visit again point later : ℕ) (one other : Outcome) → IsRunWith loaded run journal
        → early < late → slice_get (outcomes_in run.rounds) early ≡ Some one
        → slice_get (outcomes_in run.rounds) late ≡ Some other → one.worker ≡ other.worker
        → slice_get one.points visit ≡ Some point → slice_get other.points again ≡ Some later
        → point ≤ later }
{}

/// Each action that was ever made has one counter: the serials are those from 1 to how many were made.
pub fn one_counter_each()
    ensures many { (loaded : LoadedJob) (run : RunRecord) (journal : List Edit) → IsRunWith loaded run journal
        → length run.counters ≡ (state_from no_state journal).actions_made }
    ensures serials { (loaded : LoadedJob) (run : RunRecord) (journal : List Edit)
        → IsRunWith loaded run journal
        → map (λ (c : CounterLine). c.serial) run.counters ≡ range_with_len 1 (length run.counters) }
{}
