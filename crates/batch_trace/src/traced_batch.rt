//! A batch, applied and remembered.
ghost use Rattle.std.specs.Prelude.{◌≡◌, ◌≤◌, length, IfOk};
ghost use Rattle.batch_run.specs.declared.limit.TheConstants.{COMMANDS_MAX};
ghost use Rattle.batch_run.specs.Commands.{commands_in};
ghost use Rattle.batch_trace.specs.Accepted.{AreAccepted};
ghost use Rattle.batch_trace.specs.Meeting.{entries_in, AreKept};

use crate::accepted::Accepted;
use filter_origins::{Brought, Origins};
use journal_names::JournalNames;
use state_past::journals::JournalAnswers;
use std::alloc::Global;
use std::marker::Model;
use tc_base::{NoMemory, Point};
use tc_batch::is_command;

/// The accepted edits of a batch with their lines, what their states answer, and who brought what.
#[derive(Drop)]
pub struct TracedBatch {
    accepted: Accepted,
    origins: Origins,
}

impl Model for TracedBatch {
    ghost use Rattle.std.specs.Prelude.{List};
    ghost use Rattle.filter_origins.specs.Entries.{Entry};
    ghost use Rattle.batch_trace.specs.Meeting.{entries_in, IsTraced};

    ghost Value = { List Entry };

    ghost view = { λ t. entries_in t.accepted };

    ghost invariant = { λ t. IsTraced t.accepted t.origins };
}

impl TracedBatch {
    ghost use Rattle.batch_run.specs.declared.limit.TheConstants.{COMMANDS_MAX};
    ghost use Rattle.std.specs.Prelude.{◌≡◌, ◌≤◌, length};
    ghost use Rattle.walk_rules.specs.Questions.{Question};
    ghost use Rattle.state_past.specs.OfJournals.Answered.{answer_by};
    ghost use Rattle.filter_origins.specs.Origins.{brought_of};
    ghost use Rattle.journal_names.specs.Known.{answers_in};

    /// How many edits were accepted: the point of the state that they leave.
    pub(crate) fn point(&self) -> Point
        ensures point { result ≡ length self.now }
        ensures few { result ≤ COMMANDS_MAX }
    {
        self.accepted.past.point()
    }

    /// Who answers for the state that all edits leave.
    pub(crate) fn answers(&self) -> JournalAnswers<'_>
        ensures { (question : Question) → answer_by result (length self.now) question
            ≡ answers_in self.now (length self.now) question }
    {
        let accepted = &self.accepted;
        // For the proof: what lists always keep.
        let _actions = accepted.lists.actions();
        JournalAnswers::new(&accepted.journal, &accepted.past, &accepted.lists)
    }

    /// Who knows the names of the states.
    pub(crate) fn names(&self) -> JournalNames<'_>
        ensures { result ≡ self.now }
    {
        let accepted = &self.accepted;
        JournalNames::new(
            &accepted.places,
            &accepted.journal,
            &accepted.past,
            &self.origins,
            &accepted.made,
        )
    }

    /// The filters that the edits brought, in order.
    pub(crate) fn brought(&self) -> &[Brought]
        ensures { result.now ≡ brought_of self.now }
    {
        self.origins.brought()
    }
}

// The edits that the commands of a batch are accepted with, up to the first that is refused.
fn accepted_edits(alloc: Global, texts: &[&[u8]]) -> Result<Accepted, NoMemory>
    requires { length (commands_in texts.now) ≤ COMMANDS_MAX }
    ensures kept { IfOk result AreKept }
    ensures few { IfOk result (λ accepted. length accepted.journal.items ≤ COMMANDS_MAX) }
    ensures accepted { IfOk result (λ accepted. AreAccepted (commands_in texts.now) (entries_in accepted)) }
{
    let mut accepted = Accepted::new(alloc);
    let mut number = 0;
    for text in texts {
        number += 1;
        if !is_command(text) {
            continue;
        }
        let goes_on = accepted.meet(alloc, text, number)?;
        if !goes_on {
            return Ok(accepted);
        }
    }
    Ok(accepted)
}

/// Applies the lines of a batch file of at most 262,144 commands to lists in which nothing stands, up to the
/// first that is refused, and remembers what the accepted edits led to and who brought what.
///
/// `NoMemory`: memory was refused.
pub fn trace_batch(alloc: Global, texts: &[&[u8]]) -> Result<TracedBatch, NoMemory>
    requires { length (commands_in texts.now) ≤ COMMANDS_MAX }
    ensures { IfOk result (λ entries. AreAccepted (commands_in texts.now) entries) }
{
    let accepted = accepted_edits(alloc, texts)?;
    let origins = Origins::of(alloc, &accepted.journal, &accepted.places)?;
    Ok(TracedBatch { accepted, origins })
}
