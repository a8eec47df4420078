//! A run of a list: which action is next, and how the run ends.
use crate::limits::JUMPS_MAX;
use act_kinds::Control;
use std::marker::Model;

/// How a list of actions ends: the control that ended it, as tc-actions(8) names it. `Pipe` is the end behind
/// the last action.
#[derive(Clone, Copy, Debug, PartialEq, Eq)]
pub enum Ending {
    Accept,
    Shot,
    Unspec,
    Pipe,
    Reclassify,
    Goto(u32),
}

/// What follows an action: the one at that position, counted from 0, or the end of the list.
#[derive(Clone, Copy, Debug, PartialEq, Eq)]
pub enum Next {
    At(u32),
    Ended(Ending),
}

/// A run of a list of actions, from its first action to its end.
#[derive(Clone, Copy)]
pub struct ListRun {
    length: u32,
    at: u32,
    jumps: u32,
    ended: bool,
}

impl Model for ListRun {
    ghost use Rattle.act_list.specs.Run.{Run, IsSound};

    ghost Value = { Run };

    ghost view = { λ r. record { length = r.length; at = r.at; jumps = r.jumps; ended = r.ended } };

    ghost invariant = { λ r. IsSound r.length r.at r.jumps };

    ghost inverse = { λ v. record { length = v.length; at = v.at; jumps = v.jumps; ended = v.ended } };
}

impl ListRun {
    ghost use Rattle.act_list.specs.declared.limits.TheConstants.{LIST_MAX};
    ghost use Rattle.std.specs.Prelude.{◌≡◌, ◌<◌, ◌≤◌, false};
    ghost use Rattle.act_kinds.specs.declared.params.Control.TheVariants as controls;
    ghost use Rattle.act_list.specs.Run.{over, after, begun, moved, told};

    /// Begins a run of a list of that many actions, 1 to `LIST_MAX`.
    pub fn start(length: u32) -> ListRun
        requires some { 0 < length }
        requires few { length ≤ LIST_MAX }
        ensures { result ≡ begun length }
    {
        ListRun {
            length,
            at: 0,
            jumps: JUMPS_MAX,
            ended: false,
        }
    }

    /// The position of the action that is next. After the end it is that of the last action that ran.
    pub fn at(&self) -> u32
        ensures same { result ≡ self.now.at }
        ensures within { result < self.now.length }
    {
        self.at
    }

    /// Goes on after the action at the present position has given that control. The run must not have ended.
    pub fn next(&mut self, control: Control) -> Next
        requires going { self.old.ended ≡ false }
        ensures told { result ≡ told (after self.old control) }
        ensures moved { self.new ≡ moved self.old (after self.old control) }
    {
        let ending = match control {
            Control::Accept => Ending::Accept,
            Control::Shot => Ending::Shot,
            Control::Unspec => Ending::Unspec,
            Control::Reclassify => Ending::Reclassify,
            Control::Goto(chain) => Ending::Goto(chain),
            Control::Pipe => return self.pipe(),
            Control::Jump(to) => return self.jump(to),
        };
        self.end(ending)
    }

    // On to the next position, or past the last one.
    fn pipe(&mut self) -> Next
        ensures told { result ≡ told (after self.old controls.Pipe) }
        ensures moved { self.new ≡ moved self.old (after self.old controls.Pipe) }
    {
        if self.at + 1 == self.length {
            return self.end(Ending::Pipe);
        }
        self.at += 1;
        Next::At(self.at)
    }

    // To that position, if the jump can be followed.
    fn jump(&mut self, to: u32) -> Next
        ensures told { result ≡ told (after self.old (controls.Jump to)) }
        ensures moved { self.new ≡ moved self.old (after self.old (controls.Jump to)) }
    {
        if to == 0 || to >= self.length || self.jumps == 0 {
            return self.end(Ending::Accept);
        }
        self.at = to;
        self.jumps -= 1;
        Next::At(to)
    }

    fn end(&mut self, ending: Ending) -> Next
        ensures told { result ≡ told (over ending) }
        ensures moved { self.new ≡ moved self.old (over ending) }
    {
        self.ended = true;
        Next::Ended(ending)
    }
}
