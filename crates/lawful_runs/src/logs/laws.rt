//! From the logs of workers to the rounds of a run.
ghost use Rattle.std.specs.Prelude.{◌≡◌, ℕ, List, [], ◌∷◌, ◌++◌, length};
ghost use Rattle.filter_state.specs.declared.edit.Edit.{Edit};
ghost use Rattle.run_report.specs.declared.outcomes.Outcome.{Outcome};
ghost use Rattle.run_report.specs.declared.rounds.RoundRecord.{RoundRecord};
ghost use Rattle.lawful_runs.specs.Given.{Arrival, GivenRound};
ghost use Rattle.lawful_runs.specs.Outcomes.{AreWalked};
ghost use Rattle.lawful_runs.specs.Lawful.{IsRound, AreRounds, outcomes_in};
ghost use Rattle.lawful_runs.specs.OfLogs.Logs.{LogRow, AreLogs, ArePlaced};

/// The logs of a round's workers, who are numbered from 1 in the order of the logs, make the round's packets
/// walked, where each packet's outcome is that of a row with its number.
pub fn logs_make_a_round()
    ensures { (journal : List Edit) (before : ℕ) (earlier : List Outcome) (arrivals : List Arrival)
        (logs : List (List LogRow)) (outcomes : List Outcome)
        → AreLogs journal before earlier arrivals logs → ArePlaced logs outcomes
        → length outcomes ≡ length arrivals
        → AreWalked (length logs) journal before (length journal) earlier arrivals outcomes }
{}

/// Rounds with one more at their end are rounds, and their journal has that round's edits at its end.
pub fn a_round_more()
    ensures { (workers : ℕ) (rounds : List GivenRound) (round : GivenRound) (its : List RoundRecord)
        (it : RoundRecord) (journal edits : List Edit) → AreRounds workers rounds [] [] its journal
        → IsRound workers round journal (outcomes_in its) it edits
        → AreRounds workers (rounds ++ round ∷ []) [] [] (its ++ it ∷ []) (journal ++ edits) }
{}
