//! What a seat of a set of claims knows.

use crate::seats::{Held, Knows, Left};
use std::collections::LinkedList;

/// How many seats were made, how many shares this one holds, and the numbers that it drew. No value of it is
/// made.
pub struct Hand {
    pub seats: u32,
    pub shares: u32,
    pub drawn: LinkedList<u64>,
}

impl Knows for Hand {
    type Deed = u64;

    ghost seats = { λ hand. hand.seats };

    ghost shares = { λ hand. hand.shares };

    ghost deeds = { λ hand. hand.drawn };

    ghost agrees = { λ hand. Unit {0} };
}

/// What one thread knows of a set of claims: its shares, and the numbers that it drew. It has no bytes.
pub type ClaimSeat = Held<Hand>;

/// The seats that are still to be taken.
pub type ClaimSeats = Left<Hand>;
