//! A walk, packet after packet.

use crate::chains::walk;
use crate::course::Course;
use filter_lists::Lists;
use frame_edit::Meta;
use std::alloc::Global;
use std::marker::Model;
use tc_base::{Hook, NoMemory};
use walk_rules::Verdict;

/// The walk of a packet over lists that stay as they are, and room for the next one.
#[derive(Drop)]
pub struct PlainWalk {
    course: Course,
    verdict: Verdict,
}

impl Model for PlainWalk {
    ghost use Rattle.plain_walk.specs.Walked.{Walked};
    ghost use Rattle.plain_walk.specs.Seen.{walked_of};

    ghost Value = { Walked };

    ghost view = { λ w. walked_of w.course w.verdict };
}

impl PlainWalk {
    ghost use Rattle.std.specs.Prelude.{◌≡◌, ◌≤◌, length, map, option_map, IfOk};
    ghost use Rattle.frame_edit.specs.declared.limits.TheConstants.{FRAME_MAX};
    ghost use Rattle.filter_state.specs.States.{State};
    ghost use Rattle.filter_lists.specs.Spells.{Spells};
    ghost use Rattle.walk_rules.specs.Plain.{plain_walk};
    ghost use Rattle.walk_steps.specs.Told.{execution, IsShortRun};
    ghost use Rattle.plain_walk.specs.Walked.{no_walk, walked_from};

    /// Takes the room for walks: a frame, and what 65,536 visits run. No other call takes memory.
    ///
    /// No packet was walked yet: it is as after one that passed and met nothing.
    pub fn with_room(alloc: Global) -> Result<PlainWalk, NoMemory>
        ensures { IfOk result (λ walk. walk ≡ no_walk) }
    {
        Ok(PlainWalk {
            course: Course::with_room(alloc)?,
            verdict: Verdict::Pass,
        })
    }

    /// Takes a frame of at most 262,144 bytes through a hook of the lists: the plain walk over the state that
    /// they spell.
    pub fn run(&mut self, lists: &Lists, hook: Hook, bytes: &[u8])
        requires { length bytes.now ≤ FRAME_MAX }
        ensures { (s : State) → Spells lists.now s
            → walked_from bytes.now self.new ≡ plain_walk s hook bytes.now }
    {
        self.verdict = walk(&mut self.course, lists, hook, bytes);
    }

    /// What becomes of the packet.
    #[inline]
    pub fn verdict(&self) -> Verdict
        ensures { result ≡ self.now.verdict }
    {
        self.verdict
    }

    /// The frame's bytes where an action came that changes bytes; else they are those that came.
    #[inline]
    pub fn edited(&self) -> Option<&[u8]>
        ensures { option_map (λ bytes. bytes.now) result ≡ self.now.edited }
    {
        if self.course.is_edited {
            Some(self.course.frame.bytes())
        } else {
            None
        }
    }

    /// The frame's bytes as they are, of a frame that came with these.
    #[inline]
    pub fn bytes<'a>(&'a self, came: &'a [u8]) -> &'a [u8]
        requires { length came.now ≤ FRAME_MAX }
        ensures bytes { result.now ≡ (walked_from came.now self.now).frame.bytes }
        ensures short { length result.now ≤ FRAME_MAX }
    {
        if self.course.is_edited {
            self.course.frame.bytes()
        } else {
            came
        }
    }

    /// The metadata of the packet.
    #[inline]
    pub fn meta(&self) -> Meta
        ensures { result ≡ self.now.meta }
    {
        self.course.frame.meta()
    }

    /// The serial of each action that ran, with the frame's length before it, in order: 65,536 at most, of
    /// frames of 262,144 bytes at most.
    #[inline]
    pub fn executed(&self) -> &[(u32, u32)]
        ensures same { map execution result.now ≡ self.now.executed }
        ensures short { IsShortRun result.now }
    {
        self.course.executed.executed()
    }
}
