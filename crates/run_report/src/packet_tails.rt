//! What the line of a packet tells behind its number. Packets that come one after the other and are passed,
//! or dropped, often have all of it in common, and then it is made once.
ghost use Rattle.std.specs.Prelude.{◌≡◌, ◌++◌, true, OnOk};
ghost use Rattle.run_report.specs.Kept.{outcome_seen};
ghost use Rattle.run_report.specs.PacketTails.{packet_tail, IsTold};

use crate::outcomes::OutcomeView;
use crate::packet_lines::push_tail;
use std::alloc::{AllocError, Global};
use walk_rules::Verdict;

// The packet whose line was put last, and all that it told behind the number.
#[derive(Drop)]
struct Tail<'a> {
    outcome: Option<OutcomeView<'a>>,
    text: Vec<u8>,
}

impl<'a> Tail<'a> {
    // No line was put yet.
    fn new(alloc: Global) -> Self
        ensures { IsTold result.outcome result.text.items }
    {
        Tail {
            outcome: None,
            text: Vec::new(alloc),
        }
    }
}

// Whether the lines of two packets tell the same behind their numbers.
fn are_alike(one: &OutcomeView<'_>, other: &OutcomeView<'_>) -> bool
    ensures { result ≡ true → packet_tail (outcome_seen one.now) ≡ packet_tail (outcome_seen other.now) }
{
    one.worker == other.worker
        && one.verdict == other.verdict
        && one.bytes.len() == other.bytes.len()
        && one.meta == other.meta
        && one.points == other.points
}

// Whether the line of a packet tells what is kept.
fn is_kept(tail: &Tail<'_>, outcome: &OutcomeView<'_>) -> bool
    requires { IsTold tail.now.outcome tail.now.text.items }
    ensures { result ≡ true → tail.now.text.items ≡ packet_tail (outcome_seen outcome.now) }
{
    match &tail.outcome {
        None => false,
        Some(last) => are_alike(last, outcome),
    }
}

// Makes what the line of a packet tells.
fn make<'a>(tail: &mut Tail<'a>, outcome: OutcomeView<'a>) -> Result<(), AllocError>
    ensures text { OnOk result (tail.new.text.items ≡ packet_tail (outcome_seen outcome.entry)) }
    ensures told { OnOk result (IsTold tail.new.outcome tail.new.text.items) }
{
    tail.text.clear();
    push_tail(&mut tail.text, &outcome)?;
    tail.outcome = Some(outcome);
    Ok(())
}

// Puts what the line of a packet tells behind its number.
fn push_kept<'a>(
    out: &mut Vec<u8>,
    outcome: OutcomeView<'a>,
    tail: &mut Tail<'a>,
) -> Result<(), AllocError>
    requires { IsTold tail.old.outcome tail.old.text.items }
    ensures text { OnOk result (out.new.items ≡ out.old.items ++ packet_tail (outcome_seen outcome.entry)) }
    ensures told { OnOk result (IsTold tail.new.outcome tail.new.text.items) }
{
    if !is_kept(tail, &outcome) {
        make(tail, outcome)?;
    }
    out.extend_from_slice(&tail.text)
}

/// What the last lines told behind their numbers: that of a packet that passed, and that of one that was
/// dropped, since these take turns.
#[derive(Drop)]
pub(crate) struct Tails<'a> {
    passed: Tail<'a>,
    dropped: Tail<'a>,
}

impl<'a> Tails<'a> {
    ghost use Rattle.std.specs.Prelude.{◌≡◌, ◌++◌, OnOk};
    ghost use Rattle.run_report.specs.Kept.{outcome_seen};
    ghost use Rattle.run_report.specs.PacketTails.{packet_tail, AreTold};

    /// No line was put yet.
    pub(crate) fn new(alloc: Global) -> Self
        ensures { AreTold result }
    {
        Tails {
            passed: Tail::new(alloc),
            dropped: Tail::new(alloc),
        }
    }

    /// Puts what the line of a packet tells behind its number.
    pub(crate) fn push(
        &mut self,
        out: &mut Vec<u8>,
        outcome: OutcomeView<'a>,
    ) -> Result<(), AllocError>
        requires { AreTold self.old }
        ensures text { OnOk result
            (out.new.items ≡ out.old.items ++ packet_tail (outcome_seen outcome.entry)) }
        ensures told { OnOk result (AreTold self.new) }
    {
        match outcome.verdict {
            Verdict::Pass => push_kept(out, outcome, &mut self.passed),
            Verdict::Drop => push_kept(out, outcome, &mut self.dropped),
        }
    }
}
