//! Lines of a label and a number.
ghost use Rattle.std.specs.Prelude.{◌≡◌, ◌+◌, ℕ, List, true, false, Ok, OnOk};
ghost use Rattle.lawful_runs.specs.declared.loaded.LoadedJob.{LoadedJob};
ghost use Rattle.run_report.specs.Reports.{numbered_line};
ghost use Rattle.report_laws.specs.Stands.{Stand, Takes};
ghost use Rattle.report_laws.specs.OfWholePaths.FirstBadLines.{IsOpen};
ghost use Rattle.report_check.specs.OfEvents.Cursors.{IsWithin, IsAt, IsStuck, MustBe};
ghost use Rattle.tool_words.specs.declared.reason.Reason.TheVariants as reasons;
ghost use Rattle.report_check.specs.Reasons.{IsReason};

use crate::events::Cursor;
use std::alloc::AllocError;
use tc_base::NoMemory;
use tool_words::Reason;
use walk_texts::{push_count, push_text};

// Puts the line of a label and a number in place of what is there.
#[tactic(auto, unfolding(run_report::specs::Reports::numbered_line))]
fn put_numbered(text: &mut Vec<u8>, label: &str, number: u64) -> Result<(), AllocError>
    ensures { OnOk result (text.new.items ≡ numbered_line label.now number) }
{
    text.clear();
    push_count(text, label, number)?;
    push_text(text, "\n")
}

/// Goes behind the next line where it is that of the label and the number, and tells whether it was.
pub(crate) fn take_numbered(
    report: &[u8],
    cursor: &mut Cursor,
    text: &mut Vec<u8>,
    label: &str,
    number: u64,
) -> Result<bool, NoMemory>
    requires { IsWithin report.now cursor.old }
    ensures within { IsWithin report.now cursor.new }
    ensures further { result ≡ Ok true → cursor.new.line ≡ cursor.old.line + 1 }
    ensures taken { result ≡ Ok true → (loaded : LoadedJob) (stand next : Stand)
        → IsAt loaded report.now cursor.old stand → Takes loaded stand (numbered_line label.now number) next
        → IsAt loaded report.now cursor.new next }
    ensures stuck { result ≡ Ok false → (loaded : LoadedJob) (stand : Stand)
        → IsAt loaded report.now cursor.old stand → IsOpen stand
        → MustBe loaded report.now cursor.old stand (numbered_line label.now number)
        → ((line : List ℕ) → IsReason loaded stand line reasons.Round)
        → IsStuck loaded report.now cursor.new }
{
    put_numbered(text, label, number)?;
    Ok(cursor.demand(report, text.as_slice(), Reason::Round))
}
