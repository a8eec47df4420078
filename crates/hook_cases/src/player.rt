//! A reader that does one thing after the other.

use crate::frames::frame_to;
use crate::recorder::Recorder;
use crate::trouble::Trouble;
use crate::walker::Walker;
use std::thread;
use std::thread::Threads;
use walk_steps::{Progress, Walk};

/// A reader with its walk.
#[derive(Drop)]
pub(crate) enum Player<'a> {
    /// It is outside, and its last walk came so far.
    Outside(Recorder<'a>, Walk, Progress),
    Inside(Walker<'a>),
    /// It was inside too often.
    Away,
}

/// What a reader does. Where it can't, as it is outside or inside, it does nothing.
#[derive(Clone, Copy)]
pub(crate) enum Act {
    /// It goes inside, for a frame to this host of 10.0.0.0/24.
    Enter(u8),
    /// It makes the next visit of the walk.
    Visit,
    Leave,
}

impl<'a> Player<'a> {
    fn enter(self, host: u8) -> Player<'a> {
        match self {
            Player::Outside(recorder, walk, _) => match recorder.enter() {
                Some(recording) => {
                    Player::Inside(Walker::begin(recording, walk, &frame_to(host)))
                }
                None => Player::Away,
            },
            other => other,
        }
    }

    fn visit(self) -> Player<'a> {
        match self {
            Player::Inside(walker) => Player::Inside(walker.visit()),
            other => other,
        }
    }

    fn leave(self) -> Player<'a> {
        match self {
            Player::Inside(walker) => {
                let (recorder, walk, progress) = walker.leave();
                Player::Outside(recorder, walk, progress)
            }
            other => other,
        }
    }

    fn act(self, act: Act) -> Player<'a> {
        match act {
            Act::Enter(host) => self.enter(host),
            Act::Visit => self.visit(),
            Act::Leave => self.leave(),
        }
    }

    /// The same, in a thread of its own, which has ended then.
    pub(crate) fn act_apart<R: Threads + Sync>(self, rt: &R, act: Act) -> Player<'a> {
        let (player, ()) = thread::join(rt, || self.act(act), || ());
        player
    }

    /// Its walk, which has to have come to its end; it is outside then.
    pub(crate) fn into_walk(self) -> Result<Walk, Trouble> {
        match self {
            Player::Outside(recorder, walk, progress) => {
                drop(recorder);
                if let Progress::Ended = progress {
                    return Ok(walk);
                }
                drop(walk);
            }
            other => drop(other),
        }
        Err(Trouble::NotEnded)
    }
}
