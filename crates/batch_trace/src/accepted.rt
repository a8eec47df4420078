//! The accepted edits of a batch, and what they lead to.

use batch_run::{MadeAction, log_made};
use edit_lines::LinePlace;
use filter_lists::{Edit, Lists, Refusal};
use state_past::StatePast;
use std::alloc::Global;
use tc_base::NoMemory;
use tc_batch::{LineFault, line};

/// The accepted edits of a batch so far, and what they lead to.
#[derive(Drop)]
pub struct Accepted {
    /// The edits, in order.
    pub(crate) journal: Vec<Edit>,
    /// Where each was read.
    pub(crate) places: Vec<LinePlace>,
    /// What stood behind so many of them.
    pub(crate) past: StatePast,
    /// The state behind all of them.
    pub(crate) lists: Lists,
    /// The name of each action that they made, in order.
    pub(crate) made: Vec<MadeAction>,
}

impl Accepted {
    ghost use Rattle.batch_run.specs.declared.limit.TheConstants.{COMMANDS_MAX};
    ghost use Rattle.std.specs.Prelude.{◌≡◌, ◌<◌, [], length, IfOk, OnOk};
    ghost use Rattle.tc_words.specs.Lines.{words_of};
    ghost use Rattle.filter_state.specs.Lines.{IsLine};
    ghost use Rattle.batch_trace.specs.Meeting.{entries_in, AreKept, IsMet, IsTaken};

    /// No edits. It takes no memory yet.
    pub(crate) fn new(alloc: Global) -> Accepted
        ensures kept { AreKept result }
        ensures none { entries_in result ≡ [] }
    {
        Accepted {
            journal: Vec::new(alloc),
            places: Vec::new(alloc),
            past: StatePast::new(alloc),
            lists: Lists::new(alloc),
            made: Vec::new(alloc),
        }
    }

    /// Applies the command of a line, and tells whether it was accepted. Its edit is then behind the others.
    ///
    /// `NoMemory`: memory was refused, and nothing is promised of what is kept.
    pub(crate) fn meet(&mut self, alloc: Global, text: &[u8], number: u64) -> Result<bool, NoMemory>
        requires kept { AreKept self.old }
        requires few { length self.old.journal.items < COMMANDS_MAX }
        ensures kept { OnOk result (AreKept self.new) }
        ensures met { IfOk result (IsMet (entries_in self.old) (entries_in self.new) (words_of text.now) number) }
    {
        match line(alloc, text) {
            Ok(edit) => self.take(edit, number),
            Err(LineFault::NoMemory(memory)) => Err(memory),
            Err(LineFault::Syntax { .. }) => Ok(false),
        }
    }

    // Applies an edit, and puts it behind the others where it is accepted.
    fn take(&mut self, edit: Edit, number: u64) -> Result<bool, NoMemory>
        requires kept { AreKept self.old }
        requires few { length self.old.journal.items < COMMANDS_MAX }
        requires line { IsLine edit }
        ensures kept { OnOk result (AreKept self.new) }
        ensures taken { IfOk result (IsTaken (entries_in self.old) (entries_in self.new) edit number) }
    {
        let before = self.lists.actions().made();
        match self.past.follow(&mut self.lists, &edit) {
            Ok(_) => {}
            Err(refusal) => match refusal {
                Refusal::NoMemory(memory) => return Err(memory),
                _ => return Ok(false),
            },
        }
        log_made(&mut self.made, self.lists.actions().entries(), before)?;
        self.journal.push(edit)?;
        self.places.push(LinePlace {
            control: 1,
            line: number,
        })?;
        Ok(true)
    }
}
