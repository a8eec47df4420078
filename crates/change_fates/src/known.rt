//! What is known of a change while it is told.

use change_lines::{AppliedChange, ChangeAnswers};
use filter_origins::Origins;
use journal_names::JournalNames;
use std::marker::Model;
use tc_base::{Hook, Point};

/// A change that was applied, and who brought what. In a clause it is its edits with their places, the hook,
/// and the point before the change.
#[derive(Drop)]
pub(crate) struct Known<'a> {
    applied: &'a AppliedChange,
    origins: &'a Origins,
}

impl<'a> Model for Known<'a> {
    ghost use Rattle.change_fates.specs.Told.{ChangeAt};
    ghost use Rattle.change_fates.specs.Knowing.{change_of, IsKnown};

    ghost Value = { ChangeAt };

    ghost view = { λ k. change_of k.applied.now };

    ghost invariant = { λ k. IsKnown k.applied.now k.origins.now };
}

impl<'a> Known<'a> {
    ghost use Rattle.std.specs.Prelude.{◌≡◌, ◌≤◌, length};
    ghost use Rattle.filter_state.specs.Journals.{IsLawful};
    ghost use Rattle.filter_origins.specs.Entries.{edits_of};
    ghost use Rattle.change_fates.specs.Told.{hook_change};
    ghost use Rattle.change_fates.specs.Knowing.{change_of, IsKnown};

    /// What is kept of a change, with the origins of its edits.
    pub(crate) fn new(applied: &'a AppliedChange, origins: &'a Origins) -> Known<'a>
        requires { IsKnown applied.now origins.now }
        ensures { result ≡ change_of applied.now }
    {
        Known { applied, origins }
    }

    /// The hook at which packets come.
    pub(crate) fn hook(&self) -> Hook
        ensures { result ≡ self.now.hook }
    {
        self.applied.hook
    }

    /// The point before the change.
    pub(crate) fn before(&self) -> Point
        ensures is { result ≡ self.now.before }
        ensures within { result ≤ length self.now.entries }
    {
        self.applied.before
    }

    /// The point behind it.
    pub(crate) fn after(&self) -> Point
        ensures { result ≡ length self.now.entries }
    {
        self.applied.replay.past.point()
    }

    /// Who answers for the states of the change.
    pub(crate) fn answers(&self) -> ChangeAnswers<'_>
        ensures is { result ≡ hook_change self.now }
        ensures lawful { IsLawful (edits_of self.now.entries) }
    {
        let applied = self.applied;
        ChangeAnswers::new(
            &applied.replay.journal,
            &applied.replay.past,
            &applied.heads,
        )
    }

    /// Who knows the names of the states.
    pub(crate) fn names(&self) -> JournalNames<'_>
        ensures { result ≡ self.now.entries }
    {
        let replay = &self.applied.replay;
        JournalNames::new(
            &replay.places,
            &replay.journal,
            &replay.past,
            self.origins,
            &replay.made,
        )
    }
}
