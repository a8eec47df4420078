//! The laws of a change and its runs.
ghost use Rattle.std.specs.Prelude.{◌≡◌, ◌≤◌, ◌+◌, ℕ, Bool, List, [], ◌∷◌, length, slice_get, Some};
ghost use Rattle.tc_base.specs.declared.hook.Hook.{Hook};
ghost use Rattle.pcap_io.specs.declared.capture.Packet.{Packet};
ghost use Rattle.pcap_io.specs.declared.capture.Capture.{Capture};
ghost use Rattle.batch_run.specs.Commands.{Command, commands_from, commands_of};
ghost use Rattle.run_report.specs.declared.outcomes.Outcome.{Outcome};
ghost use Rattle.run_report.specs.declared.record.RunRecord.{RunRecord};
ghost use Rattle.lawful_runs.specs.declared.loaded.LoadedJob.{LoadedJob};
ghost use Rattle.lawful_runs.specs.Lawful.{IsLawfulRun};
ghost use Rattle.walk_fate_laws.specs.Fates.{Fate};
ghost use Rattle.walk_fate_laws.specs.Meeting.{CanHave};
ghost use Rattle.change_fate_laws.specs.Changes.{Changed, IsChanged, first_point, last_point, states_of};
ghost use Rattle.change_fate_laws.specs.Jobs.{IsJobOf, IsRecorded, fate_recorded};

/// Any change of any batch comes to something.
pub fn some_change()
    ensures { (batch change : List Command) (force : Bool) → (it : Changed) × IsChanged batch change force it }
{}

/// The change of the lines of two files comes to one thing.
pub fn one_change()
    ensures { (batch change : List (List ℕ)) (force : Bool) (one other : Changed)
        → IsChanged (commands_from 1 batch) (commands_from 1 change) force one
        → IsChanged (commands_from 1 batch) (commands_from 1 change) force other → one ≡ other }
{}

/// The fates that a packet can have while a change is applied are those that lawful runs of the job record of
/// it, for any number of workers.
pub fn fates_of_runs()
    ensures had { (batch change : List ℕ) (force : Bool) (hook : Hook) (capture : Capture) (loaded : LoadedJob)
        (it : Changed) (run : RunRecord) (place : ℕ) (packet : Packet) (outcome : Outcome)
        → IsJobOf batch change force hook capture loaded
        → IsChanged (commands_of batch) (commands_of change) force it → IsLawfulRun loaded run
        → slice_get capture.packets place ≡ Some packet → IsRecorded run place outcome
        → CanHave (states_of it) (first_point it) (last_point it) hook packet.bytes (fate_recorded outcome) }
    ensures recorded { (batch change : List ℕ) (force : Bool) (hook : Hook) (capture : Capture)
        (loaded : LoadedJob) (it : Changed) (place : ℕ) (packet : Packet) (fate : Fate)
        → IsJobOf batch change force hook capture loaded
        → IsChanged (commands_of batch) (commands_of change) force it
        → slice_get capture.packets place ≡ Some packet
        → CanHave (states_of it) (first_point it) (last_point it) hook packet.bytes fate
        → (run : RunRecord) × (outcome : Outcome) × IsLawfulRun loaded run × IsRecorded run place outcome
        × (fate_recorded outcome ≡ fate) }
{}

/// With as many workers as packets each choice of fates that they can have, one a packet, is recorded by one
/// lawful run.
pub fn fates_together()
    ensures { (batch change : List ℕ) (force : Bool) (hook : Hook) (capture : Capture) (loaded : LoadedJob)
        (it : Changed) (fates : List Fate) → IsJobOf batch change force hook capture loaded
        → IsChanged (commands_of batch) (commands_of change) force it
        → length capture.packets ≤ loaded.job.workers → length fates ≡ length capture.packets
        → ((place : ℕ) (packet : Packet) (fate : Fate) → slice_get capture.packets place ≡ Some packet
        → slice_get fates place ≡ Some fate
        → CanHave (states_of it) (first_point it) (last_point it) hook packet.bytes fate)
        → (run : RunRecord) × IsLawfulRun loaded run × ((place : ℕ) (fate : Fate)
        → slice_get fates place ≡ Some fate → (outcome : Outcome) × IsRecorded run place outcome
        × (fate_recorded outcome ≡ fate)) }
{}
