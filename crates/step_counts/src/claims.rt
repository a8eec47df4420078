//! The word from which threads draw numbers.
ghost use Rattle.std.specs.Prelude.{◌≡◌, ◌<◌, [], IfOk};
ghost use Rattle.step_counts.specs.Claims.{hand};

use crate::hand::{ClaimSeat, ClaimSeats, Hand};
use crate::seats::{Held, Left};
use atomic_table::{Join, Play, Seat, Split, Table, TableRule};
use std::alloc::Global;
use std::marker::Model;
use tc_base::NoMemory;

// The rule of the claim word. Its key is the number of seats.
struct EachOnce;

impl TableRule<(), Hand, u32> for EachOnce {
    ghost use Rattle.std.specs.Prelude.{[]};
    ghost use Rattle.step_counts.specs.Claims.{Claimed, hand};

    ghost holds = { Claimed };

    ghost first = { λ seats. hand seats seats [] };
}

// A number is drawn.
struct Draw;

impl Play<(), Hand> for Draw {
    ghost use Rattle.step_counts.specs.Claims.{Draws};

    ghost then = { Draws };
}

// A new seat gets one share.
struct Deal;

impl Split<Hand> for Deal {
    ghost use Rattle.std.specs.Prelude.{[], ◌-◌};
    ghost use Rattle.step_counts.specs.Claims.{hand};

    ghost left = { λ seat. record seat { shares = seat.shares - 1 } };

    ghost right = { λ seat. hand seat.seats 1 [] };
}

// One seat gets all that another has.
struct Merge;

impl Join<Hand> for Merge {
    ghost use Rattle.std.specs.Prelude.{[], ◌+◌, ◌++◌};
    ghost use Rattle.step_counts.specs.Claims.{hand};

    ghost both = { λ into seat. hand into.seats (into.shares + seat.shares) (into.drawn ++ seat.drawn) };

    ghost spent = { hand 0 0 [] };
}

type Word = Table<(), Hand, u32, EachOnce, Global>;

/// Numbers from 0 on, each for one draw. Contracts see it as its making, which its seats share.
#[derive(Drop)]
pub struct Claims {
    word: Word,
}

impl Model for Claims {
    ghost use Rattle.std.specs.Prelude.{◌≡◌};
    ghost use Rattle.atomic_table.specs.Seated.{TableId};

    ghost Value = { TableId };

    ghost view = { λ c. c.word.shared.table_id };

    ghost invariant = { λ c. c.word.shared.table_id.words ≡ 1 };
}

impl Claims {
    ghost use Rattle.std.specs.Prelude.{◌≡◌, ◌+◌, ◌^◌, ◌<◌, length, All};
    ghost use Rattle.step_counts.specs.Seats.{with_deed, with_seat, HoldsAll};
    ghost use Rattle.step_counts.specs.Claims.{HasEachBelow};

    /// A number that no other draw gets, above all that this seat drew. A seat draws fewer than 2^31 numbers.
    ///
    /// Where every other seat was given back, the seat then has all numbers from 0 up to this one, each once.
    pub fn draw(&self, seat: &mut ClaimSeat) -> u64
        requires making { seat.old.making ≡ self.now }
        requires few { length seat.old.deeds < 2 ^ 31 }
        ensures drawn { seat.new ≡ with_deed result seat.old }
        ensures rising { All (λ earlier. earlier < result) seat.old.deeds }
        ensures all { HoldsAll seat.old → HasEachBelow (result + 1) seat.new.deeds }
    {
        self.word.shared.fetch_add::<Draw>(&mut seat.place, 0, 1)
    }

    /// The shares and the numbers of a seat go to another.
    pub fn give_back(&self, into: &mut ClaimSeat, seat: ClaimSeat)
        requires into { into.old.making ≡ self.now }
        requires seat { seat.making ≡ self.now }
        ensures { into.new ≡ with_seat seat into.old }
    {
        let Held { place } = seat;
        self.word.shared.join_seat::<Merge>(&mut into.place, place);
    }
}

// Cuts the first seat, which holds all shares, into seats of one share each.
fn cut_seats(
    alloc: Global,
    word: &Word,
    mut origin: Seat<(), Hand>,
    seats: u32,
) -> Result<ClaimSeats, NoMemory>
    requires making { (origin.table_id ≡ word.now.shared.table_id) × (word.now.shared.table_id.words ≡ 1) }
    requires whole { origin.me ≡ (hand seats seats [], []) }
    ensures { IfOk result (λ rest. rest
        ≡ record { making = word.now.shared.table_id; seats = seats; left = seats }) }
{
    let mut left = Vec::with_capacity(alloc, seats as usize)?;
    for _made in 0..seats {
        left.push(Held {
            place: word.shared.split_seat::<Deal>(&mut origin),
        })?;
    }
    Ok(Left { origin, left })
}

/// A new set of claims, from which 0 is drawn first, with so many seats, at least one.
pub fn make_claims(alloc: Global, seats: u32) -> Result<(Claims, ClaimSeats), NoMemory>
    requires { 0 < seats }
    ensures { IfOk result (λ made. made.1 ≡ record { making = made.0; seats = seats; left = seats }) }
{
    let (word, origin) = Word::of_words(alloc, &[0], &seats)?;
    let seats = cut_seats(alloc, &word, origin, seats)?;
    Ok((Claims { word }, seats))
}
