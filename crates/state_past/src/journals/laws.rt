//! What lists answer of tables.
ghost use Rattle.std.specs.Prelude.{◌≡◌, ℕ, List};
ghost use Rattle.tc_base.specs.declared.hook.Hook.{Hook};
ghost use Rattle.filter_state.specs.declared.edit.Edit.{Edit};
ghost use Rattle.filter_state.specs.Journals.{state_at};
ghost use Rattle.hook_lists.specs.declared.kept.Kept.{Kept};
ghost use Rattle.hook_lists.specs.States.{AreKept};
ghost use Rattle.filter_lists.specs.Spells.{Spells};
ghost use Rattle.walk_rules.specs.Questions.{heads_of};
ghost use Rattle.walk_rules.specs.Answers.{answer_of};
ghost use Rattle.state_past.specs.OfJournals.Answered.{answer_by};

/// Where the lists stand at a point of the journal, the tables told are those of the state there.
pub fn lists_answer()
    ensures { (journal : List Edit) (lists : Kept) (point : ℕ) (hook : Hook) → AreKept lists
        → Spells lists (state_at point journal)
        → answer_by (record { journal = journal; lists = lists }) point (heads_of hook)
        ≡ answer_of (state_at point journal) (heads_of hook) }
{}
