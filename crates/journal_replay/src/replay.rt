//! A journal, and what its edits lead to.
ghost use Rattle.std.specs.Prelude.{◌≡◌, ◌++◌, ◌∷◌, [], OnOk};

use batch_run::{MadeAction, log_made};
use edit_lines::LinePlace;
use filter_lists::{Done, Edit, Lists, Refusal};
use run_report::EventKind;
use state_past::StatePast;
use std::alloc::Global;
use tc_base::NoMemory;
use tc_batch::{LineFault, line};

/// The accepted edits so far, and what they lead to.
#[derive(Drop)]
pub struct Replay {
    /// The edits, in order.
    pub journal: Vec<Edit>,
    /// Where each was read.
    pub places: Vec<LinePlace>,
    /// What stood at each point of the journal.
    pub past: StatePast,
    /// The state behind it.
    pub lists: Lists,
    /// The name of each action that it made, in order.
    pub made: Vec<MadeAction>,
    /// How many command lines were refused.
    pub refused: u64,
}

// Puts a place behind the others.
fn note_place(places: &mut Vec<LinePlace>, place: LinePlace) -> Result<(), NoMemory>
    ensures { OnOk result (places.new.items ≡ places.old.items ++ (place ∷ [])) }
{
    places.push(place)?;
    Ok(())
}

impl Replay {
    ghost use Rattle.std.specs.Prelude.{◌≡◌, ◌≢◌, ◌≤◌, ◌<◌, ◌+◌, ◌^◌, ◌++◌, ◌∷◌, [], length, true, false, Err};
    ghost use Rattle.std.specs.Prelude.{IfOk, IfErr, OnOk, if◌then◌else◌};
    ghost use Rattle.tc_words.specs.Lines.{words_of};
    ghost use Rattle.filter_state.specs.declared.refusal.Refusal.TheVariants as refusals;
    ghost use Rattle.tc_base.specs.Memory.{no_memory};
    ghost use Rattle.filter_state.specs.Lines.{IsLine};
    ghost use Rattle.filter_state.specs.States.{no_state};
    ghost use Rattle.filter_state.specs.Steps.{step};
    ghost use Rattle.filter_state.specs.Journals.{state_from};
    ghost use Rattle.batch_run.specs.declared.limit.TheConstants.{COMMANDS_MAX};
    ghost use Rattle.run_report.specs.Counts.{is_accepted};
    ghost use Rattle.round_terms.specs.Underway.{IsMet};
    ghost use Rattle.journal_replay.specs.Replays.{IsKept, IsAccepted};

    /// No edits. It takes no memory yet.
    pub fn new(alloc: Global) -> Replay
        ensures kept { IsKept result }
        ensures journal { result.journal.items ≡ [] }
        ensures places { result.places.items ≡ [] }
        ensures refused { result.refused ≡ 0 }
    {
        Replay {
            journal: Vec::new(alloc),
            places: Vec::new(alloc),
            past: StatePast::new(alloc),
            lists: Lists::new(alloc),
            made: Vec::new(alloc),
            refused: 0,
        }
    }

    /// Reads a command line, and applies its edit where it gives one: what the line comes to on the state
    /// behind the journal. An accepted edit is put behind the journal, with the place of its line, and any other
    /// line is counted as refused.
    ///
    /// `NoMemory`: memory was refused, and nothing is promised of the replay.
    pub fn meet(
        &mut self,
        alloc: Global,
        text: &[u8],
        place: LinePlace,
    ) -> Result<EventKind, NoMemory>
        requires kept { IsKept self.old }
        requires short { length self.old.journal.items ≤ COMMANDS_MAX }
        requires few { self.old.refused + 1 < 2 ^ 64 }
        ensures met { IfOk result (IsMet self.old.journal.items self.new.journal.items (words_of text.now)) }
        ensures kept { OnOk result (IsKept self.new) }
        ensures placed { IfOk result (λ kind. is_accepted kind ≡ true
            → self.new.places.items ≡ self.old.places.items ++ (place ∷ [])) }
        ensures unplaced { IfOk result (λ kind. is_accepted kind ≡ false
            → self.new.places.items ≡ self.old.places.items) }
        ensures refused { IfOk result (λ kind. self.new.refused
            ≡ self.old.refused + (if is_accepted kind then 0 else 1)) }
    {
        let edit = match line(alloc, text) {
            Ok(edit) => edit,
            Err(LineFault::NoMemory(memory)) => return Err(memory),
            Err(LineFault::Syntax { word }) => {
                self.refused += 1;
                return Ok(EventKind::Syntax { word });
            }
        };
        match self.apply(edit, place) {
            Ok(done) => Ok(EventKind::Accepted(done)),
            Err(refusal) => match refusal {
                Refusal::NoMemory(memory) => Err(memory),
                _ => {
                    self.refused += 1;
                    Ok(EventKind::Refused(refusal))
                }
            },
        }
    }

    // Applies an edit, and puts it behind the journal where it is accepted, with its place. Behind `NoMemory`
    // nothing is promised.
    fn apply(&mut self, edit: Edit, place: LinePlace) -> Result<Done, Refusal>
        requires kept { IsKept self.old }
        requires line { IsLine edit }
        requires short { length self.old.journal.items ≤ COMMANDS_MAX }
        ensures accepted { IfOk result (IsAccepted self.old.journal.items self.new.journal.items edit) }
        ensures refused { IfErr result (λ refusal. refusal ≢ refusals.NoMemory no_memory
            → step (state_from no_state self.old.journal.items) edit ≡ Err refusal) }
        ensures kept { OnOk result (IsKept self.new) }
        ensures placed { OnOk result (self.new.places.items ≡ self.old.places.items ++ (place ∷ [])) }
        ensures unplaced { IfErr result (λ refusal. refusal ≢ refusals.NoMemory no_memory
            → self.new.places.items ≡ self.old.places.items) }
        ensures stays { IfErr result (λ refusal. refusal ≢ refusals.NoMemory no_memory
            → IsKept self.new × (self.new.journal.items ≡ self.old.journal.items)) }
        ensures count { self.new.refused ≡ self.old.refused }
    {
        let before = self.lists.actions().made();
        let done = match self.past.follow(&mut self.lists, &edit) {
            Ok(done) => done,
            Err(refusal) => return Err(refusal),
        };
        log_made(&mut self.made, self.lists.actions().entries(), before)?;
        note_place(&mut self.places, place)?;
        match self.journal.push(edit) {
            Ok(()) => Ok(done),
            Err(refused) => Err(Refusal::from(NoMemory::from(refused))),
        }
    }
}
