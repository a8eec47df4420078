//! The line that tells what it all came to.
ghost use Rattle.std.specs.Prelude.{◌≡◌, ◌<◌, ◌+◌, ◌^◌, ◌++◌, OnOk};
ghost use Rattle.walk_texts.specs.Texts.{edits_text, verdicts_text, summary_line};

use crate::pieces::{push_count, push_text};
use std::alloc::AllocError;

/// What a run came to.
#[derive(Clone, Copy, Debug, PartialEq, Eq)]
pub struct Summary {
    /// How many edits were accepted.
    pub edits: u64,
    /// How many lines were refused.
    pub refused: u64,
    /// How many packets passed.
    pub passed: u64,
    /// How many packets were dropped.
    pub dropped: u64,
}

#[tactic(auto, unfolding(crate::specs::Texts::edits_text))]
fn push_edits(out: &mut Vec<u8>, summary: &Summary) -> Result<(), AllocError>
    ensures { OnOk result (out.new.items ≡ out.old.items ++ edits_text summary.now) }
{
    push_count(out, "summary edits ", summary.edits)?;
    push_count(out, " refused ", summary.refused)
}

#[tactic(auto, unfolding(crate::specs::Texts::verdicts_text))]
fn push_verdicts(out: &mut Vec<u8>, summary: &Summary) -> Result<(), AllocError>
    requires { summary.now.passed + summary.now.dropped < 2 ^ 64 }
    ensures { OnOk result (out.new.items ≡ out.old.items ++ verdicts_text summary.now) }
{
    push_count(out, " packets ", summary.passed + summary.dropped)?;
    push_count(out, " passed ", summary.passed)?;
    push_count(out, " dropped ", summary.dropped)
}

/// Puts the line that tells what a run came to behind what is there. Its packets are those that passed and
/// those that were dropped, together below 2^64.
///
/// `AllocError`: memory was refused.
pub fn push_summary(out: &mut Vec<u8>, summary: &Summary) -> Result<(), AllocError>
    requires { summary.now.passed + summary.now.dropped < 2 ^ 64 }
    ensures { OnOk result (out.new.items ≡ out.old.items ++ summary_line summary.now) }
{
    push_edits(out, summary)?;
    push_verdicts(out, summary)?;
    push_text(out, "\n")
}
