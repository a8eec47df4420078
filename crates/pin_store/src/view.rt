//! What the seats of a store know. No value of these types is made.

use crate::note::Note;
use crate::shape::Shape;
use std::collections::LinkedList;
use store_history::Commit;

/// The epoch that a reader found as it entered, and how many commits there were as that epoch began.
pub struct Floor {
    pub epoch: u64,
    pub start: u64,
}

/// What the writer knows beside the commits.
pub struct Sheet {
    /// The words of all blocks, one block behind the other.
    pub cells: LinkedList<u64>,
    /// The present epoch; so many epochs have begun since the first.
    pub epoch: u64,
    /// For each epoch, how many commits there were as it began.
    pub starts: LinkedList<u64>,
    /// The quiet epoch: no reader is inside that found an earlier one.
    pub quiet: u64,
    /// A note for each reader.
    pub notes: LinkedList<Note>,
    /// How many readers were made.
    pub made: u64,
}

/// What one seat knows. All kinds of seat have this one view, so that cutting a view in two and joining two
/// are plain functions.
pub struct View<E> {
    pub shape: Shape,
    /// The commits that it has seen, a beginning of all.
    pub seen: LinkedList<Commit<E>>,
    /// What seats that it has joined had seen.
    pub kept: LinkedList<LinkedList<Commit<E>>>,
    /// The reader's number, or 0 where it is no reader's.
    pub number: u64,
    pub pin: u64,
    pub floor: Option<Floor>,
    /// How many words of roots and of blocks it has loaded as a reader.
    pub loads: u64,
    /// Whether it is the writer's.
    pub writes: bool,
    pub sheet: Sheet,
}
