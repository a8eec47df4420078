//! What the rounds of a run came to.
ghost use Rattle.std.specs.Prelude.{◌≡◌, ◌+◌, ◌<◌, ◌≤◌, ◌^◌, length, if◌then◌else◌};
ghost use Rattle.walk_ends.specs.Passing.{is_pass};
ghost use Rattle.run_report.specs.Counts.{accepted_count, passed_count, events_in, packets_in, summary_of};

use crate::events::{Event, EventKind};
use crate::outcomes::Outcomes;
use crate::rounds::RoundRecord;
use walk_rules::Verdict;
use walk_texts::Summary;

fn count_accepted(events: &[Event]) -> usize
    ensures value { result ≡ accepted_count events.now }
    ensures within { result ≤ length events.now }
{
    events
        .iter()
        .filter(|event| matches!(event.kind, EventKind::Accepted(_)))
        .count()
}

// How many packets passed by this outcome.
fn passed(verdict: Verdict) -> usize
    ensures { result ≡ (if is_pass verdict then 1 else 0) }
{
    usize::from(matches!(verdict, Verdict::Pass))
}

fn count_passed(outcomes: &Outcomes) -> usize
    ensures value { result ≡ passed_count outcomes.now }
    ensures within { result ≤ length outcomes.now }
{
    let mut count = 0;
    for place in 0..outcomes.len() {
        count += passed(outcomes.at(place).verdict);
    }
    count
}

// Adds what a round came to.
fn add_round(summary: &mut Summary, round: &RoundRecord)
    requires events { summary.old.edits + summary.old.refused + length round.now.events < 2 ^ 64 }
    requires packets { summary.old.passed + summary.old.dropped + length round.now.outcomes < 2 ^ 64 }
    ensures edits { summary.new.edits ≡ summary.old.edits + accepted_count round.now.events }
    ensures events { summary.new.edits + summary.new.refused
        ≡ summary.old.edits + summary.old.refused + length round.now.events }
    ensures passed { summary.new.passed ≡ summary.old.passed + passed_count round.now.outcomes }
    ensures packets { summary.new.passed + summary.new.dropped
        ≡ summary.old.passed + summary.old.dropped + length round.now.outcomes }
{
    let events = round.events.as_slice();
    let accepted = count_accepted(events);
    summary.edits += accepted as u64;
    summary.refused += (events.len() - accepted) as u64;
    let passed = count_passed(&round.outcomes);
    summary.passed += passed as u64;
    summary.dropped += (round.outcomes.len() - passed) as u64;
}

/// What the rounds of a run came to, together.
pub fn summary_of(rounds: &[RoundRecord]) -> Summary
    requires events { events_in rounds.now < 2 ^ 64 }
    requires packets { packets_in rounds.now < 2 ^ 64 }
    ensures value { result ≡ summary_of rounds.now }
    ensures within { result.passed + result.dropped ≡ packets_in rounds.now }
{
    let mut summary = Summary {
        edits: 0,
        refused: 0,
        passed: 0,
        dropped: 0,
    };
    for round in rounds {
        add_round(&mut summary, round);
    }
    summary
}
