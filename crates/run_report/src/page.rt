//! The page from which a report is written.
ghost use Rattle.std.specs.Prelude.{OnOk};
ghost use Rattle.tc_base.specs.Outside.{AppendsUpTo, PutCounts};
ghost use Rattle.run_report.specs.Pages.{IsPaged};

use tc_base::{Put, Sink};

// At how many bytes a page is full.
const FULL: usize = 256 * 1024;

/// Writes a page that is full, and begins the next one in its place.
pub(crate) fn turn<O: Sink>(page: &mut Vec<u8>, out: &mut O) -> Result<(), Put>
    ensures text { OnOk result
        (IsPaged (O.written out.old) (O.written out.new) page.old.items page.new.items) }
    ensures up_to { AppendsUpTo (O.written out.old) (O.written out.new) page.old.items }
    ensures counts { PutCounts (O.faults out.old) (O.faults out.new) result }
{
    if page.len() < FULL {
        return Ok(());
    }
    out.write_all(page)?;
    page.clear();
    Ok(())
}
