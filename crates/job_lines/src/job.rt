//! What a job file says.

use crate::rounds::{BatchNames, Rounds};
use tc_base::{Bytes, Hook};

/// A control's batch in a round.
#[derive(Drop, Debug)]
pub struct BatchName {
    /// The control that applies it, from 1.
    pub control: u32,
    /// The name of the batch's file.
    pub name: Bytes,
    /// Whether it goes on after a refused line.
    pub force: bool,
}

/// The capture whose packets are walked in a round.
#[derive(Drop, Debug)]
pub struct CaptureName {
    pub hook: Hook,
    /// The name of the capture's file.
    pub name: Bytes,
    /// The name under which the packets that pass are put.
    pub out: Bytes,
}

/// What happens at the same time.
#[derive(Drop, Debug)]
pub struct Round {
    /// By rising control.
    pub batches: BatchNames,
    pub capture: Option<CaptureName>,
}

/// What a job file says.
#[derive(Drop, Debug)]
pub struct Job {
    /// How many threads walk packets, 1 to 8.
    pub workers: u32,
    /// How many threads apply batches, 1 to 4.
    pub controls: u32,
    /// One after the other, at most 1,024.
    pub rounds: Rounds,
}
