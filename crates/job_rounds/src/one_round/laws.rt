//! What the workers of a round know behind it.
ghost use Rattle.std.specs.Prelude.{◌≡◌, ◌≤◌, ℕ, ◌+◌, ◌*◌, ◌++◌, List, length, slice_get, Some};
ghost use Rattle.tc_base.specs.declared.hook.Hook.{Hook};
ghost use Rattle.pcap_io.specs.declared.capture.Packet.{Packet};
ghost use Rattle.pin_store.specs.Calls.{pin_of};
ghost use Rattle.filter_state.specs.declared.edit.Edit.{Edit};
ghost use Rattle.run_report.specs.declared.outcomes.Outcome.{Outcome};
ghost use Rattle.worker_rounds.specs.declared.worker.Worker.{Worker};
ghost use Rattle.job_rounds.specs.OfRoundState.Rounds.{StoreName};
ghost use Rattle.job_rounds.specs.OfOneRound.Ends.{HaveSeen, HaveWalked};

/// Behind a round its workers have seen all points of their own outcomes, those of the round as well. So a
/// round may follow, once they have learnt of the edits.
pub fn walks_are_seen()
    ensures { (store : StoreName) (hook : Hook) (packets : List Packet) (journal : List Edit)
        (first last : List Worker) (outcomes earlier : List Outcome) (before : ℕ)
        → HaveWalked store hook packets journal first last outcomes
        → ((at : ℕ) (worker : Worker) → slice_get first at ≡ Some worker → worker.number ≡ at + 1)
        → HaveSeen before earlier first → HaveSeen before (earlier ++ outcomes) last }
{}

/// In a round no reader goes inside more often than there are packets.
pub fn walks_are_few()
    ensures { (store : StoreName) (hook : Hook) (packets : List Packet) (journal : List Edit)
        (first last : List Worker) (outcomes : List Outcome)
        → HaveWalked store hook packets journal first last outcomes
        → (at : ℕ) (worker now : Worker) → slice_get first at ≡ Some worker → slice_get last at ≡ Some now
        → pin_of now.reader.place ≤ pin_of worker.reader.place + 2 * length packets }
{}
