//! A recorded walk is short, whatever it met.
//!
//! The rules of a walk allow 65,536 visits, and an action lets no frame grow past 262,144 bytes. So what is
//! recorded of a packet's walk in a run is bounded by the rules alone: how much was visited and ran, on how
//! long frames, and how long the frame is that it left. Counters need this, since no sum may wrap, and so
//! does whoever writes the frames that passed.

ghost use Rattle.std.specs.Prelude.{ℕ, ◌≤◌, List, length};
ghost use Rattle.frame_edit.specs.declared.limits.TheConstants.{FRAME_MAX};
ghost use Rattle.filter_state.specs.declared.edit.Edit.{Edit};
ghost use Rattle.walk_rules.specs.declared.limits.TheConstants.{VISITS_MAX};
ghost use Rattle.walk_steps.specs.Told.{IsShortRun};
ghost use Rattle.run_report.specs.declared.outcomes.Outcome.{Outcome};
ghost use Rattle.lawful_runs.specs.Given.{Arrival};
ghost use Rattle.lawful_runs.specs.Outcomes.{IsWalked};

/// A walk makes 65,536 visits at most. That of a frame of at most 262,144 bytes runs 65,536 actions at most,
/// each on a frame of at most 262,144 bytes, and leaves one.
pub fn walks_are_short()
    ensures visits { (journal : List Edit) (floor ceiling : ℕ) (arrival : Arrival) (outcome : Outcome)
        → IsWalked journal floor ceiling arrival outcome → length outcome.points ≤ VISITS_MAX }
    ensures executed { (journal : List Edit) (floor ceiling : ℕ) (arrival : Arrival) (outcome : Outcome)
        → IsWalked journal floor ceiling arrival outcome → length arrival.packet.bytes ≤ FRAME_MAX
        → IsShortRun outcome.executed }
    ensures frame { (journal : List Edit) (floor ceiling : ℕ) (arrival : Arrival) (outcome : Outcome)
        → IsWalked journal floor ceiling arrival outcome → length arrival.packet.bytes ≤ FRAME_MAX
        → length outcome.bytes ≤ FRAME_MAX }
{}
