//! What wakes the thread that waits for a round's threads.

ghost use Rattle.std.specs.Prelude.{◌≡◌, ◌-◌};

use std::sync::{Condvar, Mutex, Wait};

// How often the bell rang, and how many of the threads are still to leave.
#[derive(Clone, Copy)]
struct Moves {
    rings: u64,
    running: u32,
}

// One of them has left.
fn one_left(moves: &mut Moves)
    ensures { moves.new ≡ record moves.old { running = moves.old.running - 1 } }
{
    moves.running = moves.running.saturating_sub(1);
}

/// A bell that the threads of a round ring for the one that started them. So that one may sleep, and is awake
/// whenever there may be something to tend.
#[derive(Drop)]
pub(crate) struct Bell {
    moves: Mutex<Moves>,
    moved: Condvar,
}

impl Bell {
    /// A bell for so many, each of which leaves once.
    pub(crate) fn new(running: u32) -> Bell {
        Bell {
            moves: Mutex::new(Moves { rings: 0, running }),
            moved: Condvar::new(),
        }
    }

    /// There may be something to tend.
    pub(crate) fn ring<R: Wait>(&self, rt: &R) {
        let mut moves = self.moves.lock(rt);
        moves.rings = moves.rings.wrapping_add(1);
        self.moved.notify_one();
    }

    /// One is done, or will never begin.
    pub(crate) fn leave<R: Wait>(&self, rt: &R) {
        one_left(&mut self.moves.lock(rt));
        self.moved.notify_one();
    }

    /// Sleeps until the bell rang more often than was seen, and says how often. `None` once all have left.
    pub(crate) fn wait_past<R: Wait>(&self, rt: &R, seen: u64) -> Option<u64> {
        let moves = self.moved.wait_while(rt, self.moves.lock(rt), |moves| {
            moves.rings == seen && moves.running > 0
        });
        if moves.running == 0 {
            return None;
        }
        Some(moves.rings)
    }
}
