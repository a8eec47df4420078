//! Seats: what one thread knows of words that all threads share.

use atomic_table::Seat;
use std::marker::Model;

/// What is known at a seat: how many seats were made, how many shares it holds, and its deeds.
pub trait Knows {
    type Deed;

    ghost use Rattle.std.specs.Prelude.{ℕ, List};

    ghost seats: { Self → ℕ };

    ghost shares: { Self → ℕ };

    ghost deeds: { Self → List Self.Deed };

    // Whatever else is known agrees with the deeds.
    ghost agrees: { Self → Type 0 };
}

/// A seat of a thread. It has no bytes.
#[derive(Drop)]
pub struct Held<Known: Knows> {
    pub(crate) place: Seat<(), Known>,
}

impl<Known: Knows> Model for Held<Known> {
    ghost use Rattle.std.specs.Prelude.{◌≡◌, ◌<◌, []};
    ghost use Rattle.step_counts.specs.Seats.{Holding};

    ghost Value = { Holding Known.Deed };

    ghost view = { λ s. record {
      making = s.place.table_id;
      seats = Known.seats s.place.me.0;
      shares = Known.shares s.place.me.0;
      deeds = Known.deeds s.place.me.0;
    } };

    ghost invariant = { λ s. (0 < Known.shares s.place.me.0) × (s.place.me.1 ≡ [])
        × Known.agrees s.place.me.0 };
}

/// The seats that are still to be taken.
#[derive(Drop)]
pub struct Left<Known: Knows> {
    pub(crate) origin: Seat<(), Known>,
    pub(crate) left: Vec<Held<Known>>,
}

impl<Known: Knows> Model for Left<Known> {
    ghost use Rattle.std.specs.Prelude.{◌≡◌, length, All};
    ghost use Rattle.step_counts.specs.Seats.{Untaken, new_seat};

    ghost Value = { Untaken };

    ghost view = { λ s. record {
      making = s.origin.table_id;
      seats = Known.seats s.origin.me.0;
      left = length s.left.items;
    } };

    ghost invariant = { λ s. All (λ seat. seat ≡ new_seat (record {
      making = s.origin.table_id;
      seats = Known.seats s.origin.me.0;
      left = 0;
    })) s.left.items };
}

impl<Known: Knows> Left<Known> {
    ghost use Rattle.std.specs.Prelude.{◌≡◌, ◌+◌, ◌↔◌, IsNone, IfSome, IfNone};
    ghost use Rattle.step_counts.specs.Seats.{Untaken, new_seat};

    /// A seat that holds one share and did nothing. `None` exactly where all were taken.
    pub fn take(&mut self) -> Option<Held<Known>>
        ensures none { IsNone result ↔ (self.old.left ≡ 0) }
        ensures seat { IfSome result (λ seat. seat ≡ new_seat self.old) }
        ensures left { IfSome result (λ _. self.old ≡ record self.new { left = self.new.left + 1 }) }
        ensures same { IfNone result (self.new ≡ self.old) }
    {
        self.left.pop()
    }
}
