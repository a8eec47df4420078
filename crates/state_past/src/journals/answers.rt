//! Who answers for the states of a journal.

use crate::StatePast;
use crate::journals::changes::PointChanges;
use act_kinds::Params;
use classify_walk::tell_heads;
use filter_lists::{Edit, Lists};
use flow_fields::Key;
use point_walks::PointAnswers;
use std::marker::Model;
use tc_base::{Hook, Point};
use visit_room::{HeadRoom, Hit};

/// The states of a journal, and lists that stand at one of them.
#[derive(Drop)]
pub struct JournalAnswers<'a> {
    // of which states the past is: said, and never read
    _journal: &'a [Edit],
    past: &'a StatePast,
    lists: &'a Lists,
}

impl<'a> Model for JournalAnswers<'a> {
    ghost use Rattle.state_past.specs.OfJournals.Answered.{Answerer};
    ghost use Rattle.state_past.specs.Remembering.{Remembers};

    ghost Value = { Answerer };

    ghost view = { λ a. record { journal = a._journal.now; lists = a.lists.now } };

    ghost invariant = { λ a. Remembers a.past.now a._journal.now };
}

impl<'a> JournalAnswers<'a> {
    ghost use Rattle.std.specs.Prelude.{◌≡◌};
    ghost use Rattle.state_past.specs.Remembering.{Remembers};

    /// The answers of a journal's states by their past, but of the tables by these lists.
    pub fn new(journal: &'a [Edit], past: &'a StatePast, lists: &'a Lists) -> JournalAnswers<'a>
        requires { Remembers past.now journal.now }
        ensures { result ≡ record { journal = journal.now; lists = lists.now } }
    {
        JournalAnswers {
            _journal: journal,
            past,
            lists,
        }
    }
}

impl PointAnswers for JournalAnswers<'_> {
    ghost use Rattle.state_past.specs.OfJournals.Answered.{answer_by};

    ghost answer = { answer_by };

    fn head(&self, _point: Point, hook: Hook, into: &mut HeadRoom) -> bool {
        tell_heads(self.lists, hook, into);
        true
    }

    fn look_up(&self, point: Point, mask: u32, key: &Key<14>, into: &mut Hit) -> Option<bool> {
        self.past.look_up(point, mask, key, into)
    }

    fn params(&self, point: Point, serial: u32) -> Option<Params> {
        self.past.params(point, serial)
    }
}

impl PointChanges for JournalAnswers<'_> {
    fn head_after(&self, _point: Point, _hook: Hook) -> Option<Point> {
        None
    }

    fn look_up_after(&self, point: Point, mask: u32, key: &Key<14>) -> Option<Point> {
        self.past.look_up_after(point, mask, key)
    }

    fn params_after(&self, point: Point, serial: u32) -> Option<Point> {
        self.past.params_after(point, serial)
    }
}
