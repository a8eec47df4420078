//! The counters of a run, made behind its last round.
ghost use Rattle.std.specs.Prelude.{◌≡◌, ◌++◌, List, map, IfOk, OnOk};
ghost use Rattle.walk_ends.specs.declared.counts.Count.{Count};
ghost use Rattle.run_report.specs.declared.outcomes.Outcome.{Outcome};
ghost use Rattle.lawful_runs.specs.Lawful.{outcomes_in};
ghost use Rattle.job_rounds.specs.SoFar.{all_made};
ghost use Rattle.job_rounds.specs.Counted.{AreCounted, AreOfRun, lines_of};

use round_terms::MadeAction;
use run_counts::RunCounts;
use run_report::{CounterLine, CounterLines, Outcomes, RoundRecord};
use std::alloc::{AllocError, Global};
use tc_base::NoMemory;

// Counts what the packets of a round ran.
fn add_round(counts: &mut RunCounts, outcomes: &Outcomes) -> Result<(), NoMemory>
    requires { (before : List Outcome) × AreCounted before counts.old × AreOfRun (before ++ outcomes.now) }
    ensures { (before : List Outcome) → AreCounted before counts.old → AreOfRun (before ++ outcomes.now)
        → OnOk result (AreCounted (before ++ outcomes.now) counts.new) }
{
    for place in 0..outcomes.len() {
        counts.add(outcomes.at(place).executed)?;
    }
    Ok(())
}

// Counts what the packets of all rounds ran.
fn count_rounds(alloc: Global, rounds: &[RoundRecord]) -> Result<RunCounts, NoMemory>
    requires { AreOfRun (outcomes_in rounds.now) }
    ensures { IfOk result (AreCounted (outcomes_in rounds.now)) }
{
    let mut counts = RunCounts::new(alloc);
    for round in rounds {
        add_round(&mut counts, &round.outcomes)?;
    }
    Ok(counts)
}

// Puts the counters of these actions behind others.
fn push_lines(
    lines: &mut Vec<CounterLine>,
    counts: &RunCounts,
    made: &[MadeAction],
) -> Result<(), AllocError>
    ensures { OnOk result (lines.new.items ≡ lines.old.items ++ lines_of counts.now made.now) }
{
    for action in made {
        let count = counts.of(action.serial);
        lines.push(CounterLine {
            serial: action.serial,
            kind: action.kind,
            index: action.index,
            packets: count.packets,
            bytes: count.bytes,
        })?;
    }
    Ok(())
}

/// The counters of a run: one for each action that was made, in order.
pub(crate) fn counters_of(
    alloc: Global,
    rounds: &[RoundRecord],
    made: &[Vec<MadeAction>],
) -> Result<CounterLines, NoMemory>
    requires { AreOfRun (outcomes_in rounds.now) }
    ensures { IfOk result (λ lines. (counts : List Count) × AreCounted (outcomes_in rounds.now) counts
        × (lines ≡ lines_of counts (all_made (map (λ m. m.items) made.now)))) }
{
    let counts = count_rounds(alloc, rounds)?;
    let mut lines = Vec::new(alloc);
    for actions in made {
        push_lines(&mut lines, &counts, actions)?;
    }
    Ok(CounterLines::from_vec(lines))
}
