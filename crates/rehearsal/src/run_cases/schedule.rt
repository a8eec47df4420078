//! A gate at which the visits of walks and the lines of a control come one after the other.
//!
//! Each worker has one packet to walk, and then another one, to which it comes once the first walk is over:
//! that is how the gate knows. There it waits for the other walks. The first line waits until all walks
//! have begun.

use crate::run_cases::trouble::Trouble;
use std::alloc::Global;
use std::sync::atomic::{AtomicBool, AtomicUsize, Ordering};
use std::thread;
use tc_base::{Gate, Tender};

/// What is done. Packets, visits and lines are counted from 1.
#[derive(Clone, Copy, PartialEq, Eq)]
pub(crate) enum Turn {
    /// A packet's visit is made.
    Visit(usize, usize),
    /// Control 1 carries out a line.
    Line(usize),
    /// All is over.
    End,
}

/// How many visits of a walk are noted.
pub(crate) const NOTED: usize = 128;

// How often a thread looks whether its turn has come.
const PATIENCE: u32 = 10_000_000;

// A line that is held is tried again and again, and the tender has a turn each time. It has another one at
// the beginning of a round, and two more may be left over from a line before: the fourth at one line tells.
const HELD_TURNS: u32 = 4;

/// A walk as the gate sees it.
#[derive(Drop)]
pub(crate) struct Track {
    // The visit to which it has come.
    come: AtomicUsize,
    is_over: AtomicBool,
    // How many lines were met before each of its visits, and how many were begun when it was over.
    before: Vec<AtomicUsize>,
    behind: Vec<AtomicUsize>,
}

// Nothing noted, for each visit.
fn notes(alloc: Global) -> Result<Vec<AtomicUsize>, Trouble> {
    let mut notes = Vec::new(alloc);
    for _ in 0..NOTED {
        notes.push(AtomicUsize::new(0))?;
    }
    Ok(notes)
}

impl Track {
    fn new(alloc: Global) -> Result<Track, Trouble> {
        let before = notes(alloc)?;
        let behind = notes(alloc)?;
        Ok(Track {
            come: AtomicUsize::new(0),
            is_over: AtomicBool::new(false),
            before,
            behind,
        })
    }

    /// How many lines were met before a visit, and how many were begun when it was over.
    pub(crate) fn noted(&self, visit: usize) -> Option<(usize, usize)> {
        let place = visit.checked_sub(1)?;
        let before = self.before.get(place)?.load(Ordering::SeqCst);
        Some((before, self.behind.get(place)?.load(Ordering::SeqCst)))
    }

    // Notes that the visit is over to which it has come last.
    fn leave(&self, begun: usize) {
        let come = self.come.load(Ordering::SeqCst);
        if let Some(noted) = self.behind.get(come.wrapping_sub(1)) {
            noted.store(begun, Ordering::SeqCst);
        }
    }

    fn note(&self, visit: usize, met: usize) {
        if let Some(noted) = self.before.get(visit.wrapping_sub(1)) {
            noted.store(met, Ordering::SeqCst);
        }
    }
}

/// A gate by which these turns come in order. Each begins when all before it are over: a visit with the
/// next one or with the walk, and a line once it was met, or while it or one before it is held. The visits
/// that have no turn come last, and then the walks of the second packets.
#[derive(Drop)]
pub(crate) struct Schedule<'a> {
    turns: &'a [Turn],
    tracks: Vec<Track>,
    // Which packet each worker walks.
    packets: [AtomicUsize; 2],
    begun: AtomicUsize,
    met: AtomicUsize,
    held: AtomicUsize,
    // Somebody waited in vain. Then the gate is open.
    is_late: AtomicBool,
}

impl<'a> Schedule<'a> {
    /// A gate for as many workers, at most two.
    pub(crate) fn new(
        alloc: Global,
        workers: usize,
        turns: &'a [Turn],
    ) -> Result<Schedule<'a>, Trouble> {
        let mut tracks = Vec::new(alloc);
        for _ in 0..workers {
            tracks.push(Track::new(alloc)?)?;
        }
        Ok(Schedule {
            turns,
            tracks,
            packets: [AtomicUsize::new(0), AtomicUsize::new(0)],
            begun: AtomicUsize::new(0),
            met: AtomicUsize::new(0),
            held: AtomicUsize::new(0),
            is_late: AtomicBool::new(false),
        })
    }

    /// Whether all turns are over, and nobody waited in vain.
    pub(crate) fn is_done(&self) -> bool {
        self.has_come(Turn::End) && !self.is_late.load(Ordering::SeqCst)
    }

    /// The walk of a packet, from 1.
    pub(crate) fn track(&self, packet: usize) -> Option<&Track> {
        self.tracks.get(packet.checked_sub(1)?)
    }

    fn is_over(&self, turn: Turn) -> bool {
        match turn {
            Turn::Visit(packet, visit) => match self.track(packet) {
                Some(track) => {
                    track.come.load(Ordering::SeqCst) > visit
                        || track.is_over.load(Ordering::SeqCst)
                }
                None => true,
            },
            Turn::Line(line) => self.is_passed(line),
            Turn::End => true,
        }
    }

    // Whether a line was met, or is held, or comes behind one that is held.
    fn is_passed(&self, line: usize) -> bool {
        let met = self.met.load(Ordering::SeqCst);
        let held = self.held.load(Ordering::SeqCst);
        met >= line || (held > met && line >= held)
    }

    // Whether all turns before this one are over, and all walks have begun, or at the end are over.
    fn has_come(&self, turn: Turn) -> bool {
        let is_behind = turn == Turn::End;
        let are_there = self.tracks.iter().all(|track| {
            track.come.load(Ordering::SeqCst) > 0
                && (!is_behind || track.is_over.load(Ordering::SeqCst))
        });
        are_there
            && self
                .turns
                .iter()
                .take_while(|own| **own != turn)
                .all(|own| self.is_over(*own))
    }

    fn wait_for(&self, turn: Turn) {
        for _ in 0..PATIENCE {
            if self.has_come(turn) || self.is_late.load(Ordering::SeqCst) {
                return;
            }
            thread::yield_now();
        }
        self.is_late.store(true, Ordering::SeqCst);
    }

    // A worker comes to the packet behind its own: that walk is over.
    fn leave(&self, worker: u32) {
        let packet = match self.packets.get(worker.wrapping_sub(1) as usize) {
            Some(packet) => packet.load(Ordering::SeqCst),
            None => 0,
        };
        if let Some(track) = self.track(packet) {
            if !track.is_over.load(Ordering::SeqCst) {
                track.leave(self.begun.load(Ordering::SeqCst));
                track.is_over.store(true, Ordering::SeqCst);
            }
        }
        self.wait_for(Turn::End);
    }
}

impl Gate for Schedule<'_> {
    fn before_visit(&self, worker: u32, packet: u32, visit: u32) {
        let (packet, visit) = (packet as usize, visit as usize);
        let Some(track) = self.track(packet) else {
            return self.leave(worker);
        };
        if let Some(own) = self.packets.get(worker.wrapping_sub(1) as usize) {
            own.store(packet, Ordering::SeqCst);
        }
        track.leave(self.begun.load(Ordering::SeqCst));
        track.come.store(visit, Ordering::SeqCst);
        self.wait_for(Turn::Visit(packet, visit));
        track.note(visit, self.met.load(Ordering::SeqCst));
    }

    fn before_edit(&self, control: u32, line: u64) {
        if control == 1 {
            self.wait_for(Turn::Line(line as usize));
            self.begun.store(line as usize, Ordering::SeqCst);
        }
    }

    fn after_edit(&self, control: u32, line: u64) {
        if control == 1 {
            self.met.store(line as usize, Ordering::SeqCst);
        }
    }
}

/// A tender that sees when a line is held.
#[derive(Drop)]
pub(crate) struct Watch<'a> {
    pub(crate) schedule: &'a Schedule<'a>,
    /// The line that was begun when it looked last, and how often it has seen that.
    pub(crate) line: usize,
    pub(crate) turns: u32,
}

impl Tender for Watch<'_> {
    ghost name = { λ _. 0 };

    fn turn(&mut self) {
        let begun = self.schedule.begun.load(Ordering::SeqCst);
        if begun == self.schedule.met.load(Ordering::SeqCst) {
            return;
        }
        if self.line != begun {
            self.line = begun;
            self.turns = 0;
        }
        self.turns = self.turns.saturating_add(1);
        if self.turns >= HELD_TURNS {
            self.schedule.held.store(begun, Ordering::SeqCst);
        }
    }
}
