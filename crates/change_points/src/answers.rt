//! Who answers for the states of a change.

use crate::heads::HookHeads;
use act_kinds::Params;
use filter_lists::Edit;
use flow_fields::Key;
use point_walks::PointAnswers;
use state_past::StatePast;
use state_past::journals::PointChanges;
use std::marker::Model;
use tc_base::{Hook, Point};
use visit_room::{HeadRoom, Hit};

/// The states of a journal, whose edits behind a point are a change that is looked at from one hook.
#[derive(Drop)]
pub struct ChangeAnswers<'a> {
    // of which states the past is: said, and never read
    _journal: &'a [Edit],
    past: &'a StatePast,
    heads: &'a HookHeads,
}

impl<'a> Model for ChangeAnswers<'a> {
    ghost use Rattle.state_past.specs.Remembering.{Remembers};
    ghost use Rattle.change_points.specs.Heads.{KnowsHeads};
    ghost use Rattle.change_points.specs.Answers.{HookChange};

    ghost Value = { HookChange };

    ghost view = { λ a. record {
      journal = a._journal.now;
      hook = a.heads.now.hook;
      before = a.heads.now.before;
    } };

    ghost invariant = { λ a. Remembers a.past.now a._journal.now × KnowsHeads a.heads.now a._journal.now };
}

impl<'a> ChangeAnswers<'a> {
    ghost use Rattle.std.specs.Prelude.{◌≡◌};
    ghost use Rattle.state_past.specs.Remembering.{Remembers};
    ghost use Rattle.change_points.specs.Heads.{KnowsHeads};

    /// The answers of a journal's states by their past, and by the tables of a hook from a point on.
    pub fn new(journal: &'a [Edit], past: &'a StatePast, heads: &'a HookHeads) -> ChangeAnswers<'a>
        requires remembers { Remembers past.now journal.now }
        requires knows { KnowsHeads heads.now journal.now }
        ensures { result
            ≡ record { journal = journal.now; hook = heads.now.hook; before = heads.now.before } }
    {
        ChangeAnswers {
            _journal: journal,
            past,
            heads,
        }
    }
}

impl PointAnswers for ChangeAnswers<'_> {
    ghost use Rattle.change_points.specs.Answers.{answer_in};

    ghost answer = { answer_in };

    fn head(&self, point: Point, hook: Hook, into: &mut HeadRoom) -> bool {
        self.heads.are_of(hook) && self.heads.tell(point, into)
    }

    fn look_up(&self, point: Point, mask: u32, key: &Key<14>, into: &mut Hit) -> Option<bool> {
        self.past.look_up(point, mask, key, into)
    }

    fn params(&self, point: Point, serial: u32) -> Option<Params> {
        self.past.params(point, serial)
    }
}

impl PointChanges for ChangeAnswers<'_> {
    fn head_after(&self, point: Point, hook: Hook) -> Option<Point> {
        if !self.heads.are_of(hook) {
            return None;
        }
        self.heads.after(point)
    }

    fn look_up_after(&self, point: Point, mask: u32, key: &Key<14>) -> Option<Point> {
        self.past.look_up_after(point, mask, key)
    }

    fn params_after(&self, point: Point, serial: u32) -> Option<Point> {
        self.past.params_after(point, serial)
    }
}
