//! Which lines may come next in a round.
ghost use Rattle.std.specs.Prelude.{◌≡◌, ℕ, ◌+◌, List, [], ◌∷◌, ◌++◌, length, codes, Some, slice_get};
ghost use Rattle.filter_state.specs.declared.edit.Edit.{Edit};
ghost use Rattle.walk_rules.specs.Walks.{Outcome as WalkOutcome};
ghost use Rattle.run_report.specs.declared.events.Event.{Event};
ghost use Rattle.run_report.specs.declared.rounds.RoundRecord.{RoundRecord};
ghost use Rattle.run_report.specs.Counts.{accepted_count, edits_in};
ghost use Rattle.run_report.specs.EventTexts.{event_line};
ghost use Rattle.run_report.specs.PacketTexts.{packet_line};
ghost use Rattle.run_report.specs.Reports.{numbered_line};
ghost use Rattle.lawful_runs.specs.declared.loaded.LoadedJob.{LoadedJob};
ghost use Rattle.lawful_runs.specs.Events.{AreInOrder};
ghost use Rattle.lawful_runs.specs.Given.{Arrival, GivenRound, IsLoaded, given_rounds};
ghost use Rattle.report_laws.specs.Begun.{AreBegun};
ghost use Rattle.report_laws.specs.Stands.{Stand, inside, with_event, with_outcome, settled, Takes};
ghost use Rattle.report_laws.specs.OfNextLines.Left.{IsLeft, NoneLeft, IsNextOf};
ghost use Rattle.report_laws.specs.OfNextLines.Walks.{recorded_by, IsNextWalk};

/// As long as a control has a command left, the next line is that of some control's next command with its
/// result on the state so far, and each of these may come.
pub fn next_events()
    ensures takes { (loaded : LoadedJob) (round : GivenRound) (its : List RoundRecord) (before : List Edit)
        (it : RoundRecord) (edits : List Edit) → IsLoaded loaded
        → slice_get (given_rounds loaded) (length its) ≡ Some round → (event : Event) (own : List Edit)
        → it.outcomes ≡ [] → AreBegun round.batches it.events → IsNextOf round before it edits event own
        → Takes loaded (inside its before it edits)
        (event_line (edits_in its + accepted_count it.events) event)
        (inside its before (with_event it event) (edits ++ own)) }
    ensures no_other { (loaded : LoadedJob) (round : GivenRound) (its : List RoundRecord) (before : List Edit)
        (it : RoundRecord) (edits : List Edit) → IsLoaded loaded
        → slice_get (given_rounds loaded) (length its) ≡ Some round → (line : List ℕ) (next : Stand)
        → IsLeft round.batches it.events → Takes loaded (inside its before it edits) line next
        → (event : Event) × (own : List Edit) × IsNextOf round before it edits event own
        × (line ≡ event_line (edits_in its + accepted_count it.events) event)
        × (next ≡ inside its before (with_event it event) (edits ++ own)) }
{}

/// Once no control has a command left, the next line is the next packet's, with its walk at lawful points,
/// and each such line may come; behind the last packet it is the round's last line.
pub fn next_packets()
    ensures takes { (loaded : LoadedJob) (round : GivenRound) (its : List RoundRecord) (before : List Edit)
        (it : RoundRecord) (edits : List Edit) → IsLoaded loaded
        → slice_get (given_rounds loaded) (length its) ≡ Some round
        → (worker : ℕ) (arrival : Arrival) (points : List ℕ) (walk : WalkOutcome)
        → AreInOrder round.batches it.events
        → IsNextWalk loaded.job.workers round its before it edits worker arrival points walk
        → Takes loaded (inside its before it edits)
        (packet_line (1 + length it.outcomes) (recorded_by worker points walk))
        (inside its before (with_outcome it (recorded_by worker points walk)) edits) }
    ensures no_other { (loaded : LoadedJob) (round : GivenRound) (its : List RoundRecord) (before : List Edit)
        (it : RoundRecord) (edits : List Edit) → IsLoaded loaded
        → slice_get (given_rounds loaded) (length its) ≡ Some round
        → (line : List ℕ) (next : Stand) (arrival : Arrival) → NoneLeft round.batches it.events
        → slice_get round.arrivals (length it.outcomes) ≡ Some arrival
        → Takes loaded (inside its before it edits) line next
        → (worker : ℕ) × (points : List ℕ) × (walk : WalkOutcome)
        × IsNextWalk loaded.job.workers round its before it edits worker arrival points walk
        × (line ≡ packet_line (1 + length it.outcomes) (recorded_by worker points walk))
        × (next ≡ inside its before (with_outcome it (recorded_by worker points walk)) edits) }
    ensures end { (loaded : LoadedJob) (round : GivenRound) (its : List RoundRecord) (before : List Edit)
        (it : RoundRecord) (edits : List Edit) → IsLoaded loaded
        → slice_get (given_rounds loaded) (length its) ≡ Some round → (line : List ℕ) (next : Stand)
        → NoneLeft round.batches it.events → length it.outcomes ≡ length round.arrivals
        → Takes loaded (inside its before it edits) line next
        → (line ≡ numbered_line (codes "end round ") (length its + 1))
        × (next ≡ settled loaded (its ++ (it ∷ [])) (before ++ edits)) }
    ensures told { (round : GivenRound) (it : RoundRecord) → AreBegun round.batches it.events
        → NoneLeft round.batches it.events → AreInOrder round.batches it.events }
{}
