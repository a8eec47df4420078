//! Claims of packets, which many threads make at once without a lock.
//!
//! Each worker draws the next packet that is its own (`Claims`), by a single atomic addition on a word that
//! all threads share, so nobody waits and nothing is lost. What a thread then knows of the shared word is
//! only what it did itself. So each thread has a seat. A seat has no bytes: it exists for contracts alone,
//! and says what its thread drew. One rule, which every step keeps, ties the seats to the word: the numbers
//! that all seats drew are those below the claim word, each once.
//!
//! That none was left out is a fact about all seats at once. So each seat holds a share, and giving a seat
//! back hands its share and its deeds to another seat. Whoever holds all shares has all deeds in one list,
//! and only there `draw` tells the whole. Two laws go on from there: that one draw behind all seats tells
//! that no number was left out (`each_number_once`), and that a sum over drawn numbers doesn't hang on their
//! order (`sums_over_numbers`).
//!
//! `Claims` is shared by `&` among any number of threads. A seat belongs to one thread at a time, and may
//! move to another. Seats of one making are given out by `take`, before the threads start, by whoever owns
//! the rest of them.
//!
//! Only `make_claims` takes memory. No call waits. Not promised: that memory suffices, and in which order
//! threads get on.
#![tactic(auto)]

mod claims;
mod hand;
mod laws;
mod seats;

pub use claims::{Claims, make_claims};
pub use hand::{ClaimSeat, ClaimSeats};
pub use laws::{each_number_once, sums_over_numbers};
