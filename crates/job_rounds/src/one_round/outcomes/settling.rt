//! The outcomes of a round.
ghost use Rattle.std.specs.Prelude.{◌≡◌, ℕ, ◌+◌, ◌*◌, ◌<◌, ◌^◌, List, length, IfOk};
ghost use Rattle.std.specs.List.{AllByRecursion, flat_map};
ghost use Rattle.filter_state.specs.declared.edit.Edit.{Edit};
ghost use Rattle.run_report.specs.declared.outcomes.Outcome.{Outcome};
ghost use Rattle.step_counts.specs.Claims.{HasEachBelow};
ghost use Rattle.lawful_runs.specs.Given.{Arrival};
ghost use Rattle.lawful_runs.specs.Outcomes.{AreWalked};
ghost use Rattle.lawful_runs.specs.OfLogs.Logs.{ArePlaced};
ghost use Rattle.worker_rounds.specs.OfLogs.Rows.{numbers_of};
ghost use Rattle.job_rounds.specs.OfOneRound.OfOutcomes.Draws.{AreAllSeats, AreDrawn, IsRising};
ghost use Rattle.job_rounds.specs.OfOneRound.OfOutcomes.Met.{AreBack};

use crate::one_round::outcomes::drawing::draw_past;
use run_report::Outcomes;
use std::alloc::Global;
use step_counts::{ClaimSeat, Claims};
use tc_base::NoMemory;
use worker_rounds::logs::{WalkLog, put_together};

/// The outcomes of a round, from the logs of its workers and the seats at which they drew, which are all the
/// seats of one set of claims.
///
/// The numbers of all rows are those of the packets, each once, and each packet's outcome is that of the row
/// with its number. Where the logs stand in the order of the workers' numbers, from 1, and the desk has met
/// their readers, the packets are walked over the desk's journal.
///
/// `NoMemory`: memory was refused, and the logs are gone.
pub fn settle(
    alloc: Global,
    claims: &Claims,
    seats: Vec<ClaimSeat>,
    logs: Vec<WalkLog>,
    count: u32,
) -> Result<Outcomes, NoMemory>
    requires some { 0 < length logs.items }
    requires seats { AreAllSeats claims.now seats.items }
    requires drawn { AreDrawn count seats.items logs.items }
    requires rising { AllByRecursion IsRising logs.items }
    requires few { length logs.items * (count + 1) < 2 ^ 31 }
    ensures each_once { HasEachBelow count (flat_map numbers_of logs.items) }
    ensures placed { IfOk result (λ outcomes. ArePlaced logs.items outcomes) }
    ensures many { IfOk result (λ outcomes. length outcomes ≡ count) }
    ensures walked { IfOk result (λ outcomes. (journal : List Edit) (before : ℕ) (earlier : List Outcome)
        (arrivals : List Arrival) → AreBack journal before earlier arrivals logs.items
        → length arrivals ≡ count
        → AreWalked (length logs.items) journal before (length journal) earlier arrivals outcomes) }
{
    draw_past(claims, seats);
    put_together(alloc, logs, count)
}
