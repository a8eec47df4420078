//! What holds of a round from its beginning to its end.
ghost use Rattle.std.specs.Prelude.{◌≡◌, ◌≤◌, ◌+◌, ◌-◌, ◌||◌, ℕ, Bool, false, List, [], ◌∷◌, ◌++◌, length};
ghost use Rattle.std.specs.Prelude.{replicate, slice_get, Some};
ghost use Rattle.tc_words.specs.Lines.{words_of};
ghost use Rattle.filter_state.specs.declared.edit.Edit.{Edit};
ghost use Rattle.batch_run.specs.Commands.{Command};
ghost use Rattle.run_report.specs.declared.events.Event.{Event};
ghost use Rattle.run_report.specs.declared.events.EventKind.{EventKind};
ghost use Rattle.run_report.specs.Counts.{is_accepted};
ghost use Rattle.lawful_runs.specs.declared.loaded.LoadedJob.{LoadedJob};
ghost use Rattle.lawful_runs.specs.Given.{GivenRound, IsLoaded, given_rounds};
ghost use Rattle.lawful_runs.specs.Events.{IsThrough, AreInOrder};
ghost use Rattle.round_terms.specs.declared.place.Place.{Place};
ghost use Rattle.round_terms.specs.Files.{RoundFile, AreFiles, files_of, batches_of, commands_in_all};
ghost use Rattle.round_terms.specs.Coming.{HasCome, IsThroughAll};
ghost use Rattle.round_terms.specs.Underway.{IsUnderway, IsMet};
ghost use Rattle.round_terms.specs.Turns.{IsNextLine, moved_on};

/// The batches of a round are those that a lawful run takes it to have, and each control has one at most.
pub fn batches_are_given()
    ensures given { (loaded : LoadedJob) (number : ℕ) (given : GivenRound)
        → slice_get (given_rounds loaded) (number - 1) ≡ Some given
        → given.batches ≡ batches_of (files_of loaded number) }
    ensures files { (loaded : LoadedJob) (number : ℕ) → IsLoaded loaded
        → AreFiles (files_of loaded number) loaded.job.controls }
{}

/// A control whose events have come to the end of its batch is through it, and one that has a command left
/// isn't.
pub fn who_is_through()
    ensures through { (force : Bool) (commands : List Command) (events : List Event)
        → HasCome force commands events [] → IsThrough force commands events }
    ensures not_through { (force : Bool) (commands left : List Command) (command : Command)
        (events : List Event) → HasCome force commands events (command ∷ left)
        → IsThrough force commands events → ⊥ }
{}

/// Before the first event no control has met a line.
pub fn rounds_begin()
    ensures { (files : List RoundFile) (controls : ℕ) (before : List Edit) → AreFiles files controls
        → IsUnderway files controls before before []
        (replicate controls (record { at = 0; line = 0; over = false })) }
{}

/// While a control has a line left there are fewer events than the batches have commands. So there is room
/// for one event more wherever there is room for all commands.
pub fn there_is_room()
    ensures { (files : List RoundFile) (controls : ℕ) (before journal : List Edit) (events : List Event)
        (places : List Place) (control : ℕ) (file : RoundFile) (place : Place) (text : List ℕ) (line next : ℕ)
        → IsUnderway files controls before journal events places → AreFiles files controls
        → IsNextLine files places control file place text line next
        → length events + 1 ≤ commands_in_all files }
{}

/// A round stays under way where a control meets its next line, whatever that comes to.
pub fn one_event_more()
    ensures { (files : List RoundFile) (controls : ℕ) (before journal later : List Edit) (events : List Event)
        (places : List Place) (control : ℕ) (file : RoundFile) (place : Place) (text : List ℕ) (line next : ℕ)
        (kind : EventKind) → IsUnderway files controls before journal events places → AreFiles files controls
        → IsNextLine files places control file place text line next
        → IsMet journal later (words_of text) kind
        → IsUnderway files controls before later
        (events ++ (record { control = control; line = line; kind = kind } ∷ []))
        (moved_on places control line next (file.force || is_accepted kind)) }
{}

/// Where each control is through, the events of the round are in order, as a lawful run asks.
pub fn rounds_end()
    ensures { (files : List RoundFile) (controls : ℕ) (events : List Event) → AreFiles files controls
        → ((control : ℕ) → 1 ≤ control → control ≤ controls → IsThroughAll files control events)
        → AreInOrder (batches_of files) events }
{}
