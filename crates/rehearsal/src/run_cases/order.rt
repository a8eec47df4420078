//! A gate that has steps of a run come one after the other.

use std::sync::atomic::{AtomicBool, AtomicUsize, Ordering};
use std::thread;
use tc_base::{Gate, Tender};

/// What a thread of a run does. Numbers are those of the run's gate, from 1.
#[derive(Clone, Copy, PartialEq, Eq)]
pub(crate) enum Step {
    /// The walk of this packet comes to this visit. All visits before it were made.
    Comes(u32, u32),
    /// The walk of this packet goes on to this visit.
    Goes(u32, u32),
    /// This control begins with this line.
    Begins(u32, u64),
    /// This control is done with this line.
    Ends(u32, u64),
    /// The tender has a turn, by which nobody is held.
    Tends,
}

// How often a thread looks whether its turn has come.
const PATIENCE: u32 = 10_000_000;

/// A gate at which steps come in this order. Those that it doesn't name come at any time.
#[derive(Drop)]
pub(crate) struct Order<'a> {
    steps: &'a [Step],
    // How many were taken.
    taken: AtomicUsize,
    // Somebody waited in vain. Then the gate is open.
    is_late: AtomicBool,
}

impl<'a> Order<'a> {
    pub(crate) fn new(steps: &'a [Step]) -> Order<'a> {
        Order {
            steps,
            taken: AtomicUsize::new(0),
            is_late: AtomicBool::new(false),
        }
    }

    /// Whether all steps were taken, and nobody waited in vain.
    pub(crate) fn is_done(&self) -> bool {
        self.taken.load(Ordering::SeqCst) == self.steps.len()
            && !self.is_late.load(Ordering::SeqCst)
    }

    // Takes the step at a place if all before it were taken.
    fn takes(&self, place: usize) -> bool {
        if self.taken.load(Ordering::SeqCst) != place {
            return false;
        }
        self.taken.store(place.saturating_add(1), Ordering::SeqCst);
        true
    }

    // Waits for the turn of the step at a place.
    fn wait_for(&self, place: usize) {
        for _ in 0..PATIENCE {
            if self.takes(place) || self.is_late.load(Ordering::SeqCst) {
                return;
            }
            thread::yield_now();
        }
        self.is_late.store(true, Ordering::SeqCst);
    }

    // Comes to the gate for a step.
    fn pass(&self, step: Step) {
        if let Some(place) = self.steps.iter().position(|own| *own == step) {
            self.wait_for(place);
        }
    }
}

impl Gate for Order<'_> {
    fn before_visit(&self, _worker: u32, packet: u32, visit: u32) {
        self.pass(Step::Comes(packet, visit));
        self.pass(Step::Goes(packet, visit));
    }

    fn before_edit(&self, control: u32, line: u64) {
        self.pass(Step::Begins(control, line));
    }

    fn after_edit(&self, control: u32, line: u64) {
        self.pass(Step::Ends(control, line));
    }
}

/// A tender that takes a step each time that one of its own is the next.
#[derive(Drop)]
pub(crate) struct Turns<'a> {
    pub(crate) order: &'a Order<'a>,
}

impl Tender for Turns<'_> {
    ghost name = { λ _. 0 };

    fn turn(&mut self) {
        let place = self.order.taken.load(Ordering::SeqCst);
        if let Some(Step::Tends) = self.order.steps.get(place) {
            self.order.takes(place);
        }
    }
}
