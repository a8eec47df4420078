//! The draw behind all draws.
ghost use Rattle.std.specs.Prelude.{◌≡◌, ℕ, ◌<◌, ◌^◌, List, length};
ghost use Rattle.std.specs.List.{AllByRecursion, flat_map};
ghost use Rattle.step_counts.specs.Claims.{HasEachBelow};
ghost use Rattle.lawful_runs.specs.OfLogs.Logs.{LogRow};
ghost use Rattle.worker_rounds.specs.OfLogs.Rows.{numbers_of};
ghost use Rattle.job_rounds.specs.OfOneRound.OfOutcomes.Draws.{AreAllSeats, AreDrawn, deeds_of, with_seats};

use step_counts::{ClaimSeat, Claims};

// Gives the others back into one seat.
fn give_all(claims: &Claims, into: &mut ClaimSeat, others: Vec<ClaimSeat>)
    requires into { into.old.making ≡ claims.now }
    requires others { AllByRecursion (λ seat. seat.making ≡ claims.now) others.items }
    ensures given { into.new ≡ with_seats others.items into.old }
{
    for seat in others {
        claims.give_back(into, seat);
    }
}

/// Gives all seats of the claims back into one, and draws one number more there. So it is known that rows for
/// all numbers that were drawn, but for each thread's last one, are rows for the packets, each once.
pub(crate) fn draw_past(claims: &Claims, mut seats: Vec<ClaimSeat>)
    requires some { 0 < length seats.items }
    requires seats { AreAllSeats claims.now seats.items }
    requires few { length (deeds_of seats.items) < 2 ^ 31 }
    ensures each_once { (count : ℕ) (logs : List (List LogRow)) → AreDrawn count seats.items logs
        → HasEachBelow count (flat_map numbers_of logs) }
{
    let mut all = seats.remove(0);
    give_all(claims, &mut all, seats);
    claims.draw(&mut all);
}
