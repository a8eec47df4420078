//! The line of a label and a number.
ghost use Rattle.std.specs.Prelude.{◌≡◌, ◌++◌, OnOk};
ghost use Rattle.run_report.specs.Reports.{numbered_line};

use std::alloc::AllocError;
use walk_texts::{push_count, push_text};

/// Puts the line of a label and a number.
#[tactic(auto, unfolding(crate::specs::Reports::numbered_line))]
pub(crate) fn push_numbered_line(
    out: &mut Vec<u8>,
    label: &str,
    number: u64,
) -> Result<(), AllocError>
    ensures { OnOk result (out.new.items ≡ out.old.items ++ numbered_line label.now number) }
{
    push_count(out, label, number)?;
    push_text(out, "\n")
}
