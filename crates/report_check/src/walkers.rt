//! The workers of a run, as its packets' lines tell them.

use crate::walker::Walker;
use point_walks::LatestPoints;
use run_counts::RunCounts;
use std::alloc::Global;
use tc_base::{NoMemory, Point};
use walk_steps::Walk;

/// The workers, how often each action ran, and the room in which packet after packet is walked again.
#[derive(Drop)]
pub struct Walkers {
    /// The first worker's first.
    pub(crate) each: Vec<Walker>,
    pub(crate) counts: RunCounts,
    /// How many packets passed, and how many were dropped.
    pub(crate) passed: u64,
    pub(crate) dropped: u64,
    pub(crate) room: Room,
}

/// Room for the walk of one packet and for its line.
#[derive(Drop)]
pub struct Room {
    pub(crate) walk: Walk,
    pub(crate) latest: LatestPoints,
    pub(crate) points: Vec<Point>,
    pub(crate) text: Vec<u8>,
}

impl Room {
    fn new(alloc: Global) -> Result<Room, NoMemory> {
        Ok(Room {
            walk: Walk::with_room(alloc)?,
            latest: LatestPoints::new(alloc),
            points: Vec::new(alloc),
            text: Vec::new(alloc),
        })
    }
}

impl Walkers {
    ghost use Rattle.std.specs.Prelude.{[], IfOk};
    ghost use Rattle.report_check.specs.Walked.{AreWalkers};

    /// So many workers, that walked no packet.
    pub(crate) fn new(alloc: Global, workers: u32) -> Result<Walkers, NoMemory>
        ensures { IfOk result (AreWalkers workers [] []) }
    {
        let mut each = Vec::new(alloc);
        for _number in 0..workers {
            each.push(Walker::new(alloc))?;
        }
        Ok(Walkers {
            each,
            counts: RunCounts::new(alloc),
            passed: 0,
            dropped: 0,
            room: Room::new(alloc)?,
        })
    }
}
