//! What is known of a run while its trace is written.

use batch_trace::{Brought, JournalAnswers, JournalNames, Origins};
use filter_lists::Lists;
use report_check::{Replay, Walker};
use std::alloc::Global;
use std::marker::Model;
use tc_base::{NoMemory, Point};

/// The journal of a run with where its edits were read, what its states answer, and who brought what. In a
/// clause it is the edits with their places.
#[derive(Drop)]
pub(crate) struct Known<'a> {
    replay: &'a Replay,
    origins: &'a Origins,
}

impl<'a> Model for Known<'a> {
    ghost use Rattle.std.specs.Prelude.{List};
    ghost use Rattle.batch_trace.specs.Passed.{Entry};
    ghost use Rattle.report_trace.specs.Knowing.{entries_in_replay, IsKnown};

    ghost Value = { List Entry };

    ghost view = { λ k. entries_in_replay k.replay.now };

    ghost invariant = { λ k. IsKnown k.replay.now k.origins.now };
}

impl<'a> Known<'a> {
    ghost use Rattle.std.specs.Prelude.{◌≡◌, ◌≤◌, length, OnOk};
    ghost use Rattle.batch_trace.specs.Passed.{edits_of};
    ghost use Rattle.batch_trace.specs.Passed.{brought_of};
    ghost use Rattle.report_check.specs.Walks.{StandsIn};
    ghost use Rattle.report_trace.specs.Knowing.{entries_in_replay, IsKnown};

    /// What a replay keeps of a run, with the origins of its edits.
    pub(crate) fn new(replay: &'a Replay, origins: &'a Origins) -> Known<'a>
        requires { IsKnown replay.now origins.now }
        ensures { result ≡ entries_in_replay replay.now }
    {
        Known { replay, origins }
    }

    /// Who answers for the states of the edits, but for the tables by these lists.
    pub(crate) fn answers<'b>(&'b self, lists: &'b Lists) -> JournalAnswers<'b>
        ensures { result ≡ record { journal = edits_of self.now; lists = lists.now } }
    {
        let replay = self.replay;
        JournalAnswers::new(&replay.journal, &replay.past, lists)
    }

    /// Who knows the names of the states.
    pub(crate) fn names(&self) -> JournalNames<'_>
        ensures { result ≡ self.now }
    {
        let replay = self.replay;
        JournalNames::new(
            &replay.places,
            &replay.journal,
            &replay.past,
            self.origins,
            &replay.made,
        )
    }

    /// The filters that the edits brought, in order.
    pub(crate) fn brought(&self) -> &[Brought]
        ensures { result.now ≡ brought_of self.now }
    {
        self.origins.brought()
    }

    /// Takes a worker's lists to a point.
    ///
    /// `NoMemory`: memory was refused.
    pub(crate) fn follow(
        &self,
        alloc: Global,
        walker: &mut Walker,
        point: Point,
    ) -> Result<(), NoMemory>
        requires point { point ≤ length self.now }
        requires stands { StandsIn (edits_of self.now) walker.old }
        ensures stands { OnOk result (StandsIn (edits_of self.now) walker.new) }
        ensures at { OnOk result (walker.new.at ≡ point) }
    {
        let replay = self.replay;
        go_before(alloc, walker, point);
        walker.follow(&replay.journal, point)
    }
}

ghost use Rattle.std.specs.Prelude.{◌≤◌, List};
ghost use Rattle.filter_state.specs.declared.edit.Edit.{Edit};
ghost use Rattle.report_check.specs.Walks.{StandsIn};

// Lists that stand behind a point begin anew.
fn go_before(alloc: Global, walker: &mut Walker, point: Point)
    ensures stands { (journal : List Edit) → StandsIn journal walker.old → StandsIn journal walker.new }
    ensures before { walker.new.at ≤ point }
{
    if point < walker.at {
        *walker = Walker::new(alloc);
    }
}
