//! The page from which the text is written.
ghost use Rattle.std.specs.Prelude.{◌≡◌, ◌≤◌, List, ℕ, Option, OnOk, IsErrOf};
ghost use Rattle.tc_base.specs.Outside.{AppendsUpTo, PutCounts};
ghost use Rattle.change_fates.specs.Paging.{IsOnPage};

use tc_base::{Put, Sink};
use trace_lines::Page;

// At how many bytes a page is full.
const FULL: usize = 64 * 1024;

/// Writes a page that is full, and begins the next one in its place.
///
/// `Failed`: the sink could not write.
pub(crate) fn turn<O: Sink>(page: &mut Page, out: &mut O) -> Result<(), Put>
    ensures on { OnOk result ((first : Option (List ℕ)) (whole rest : List ℕ)
        → IsOnPage first (O.written out.old) whole page.old rest
        → IsOnPage first (O.written out.new) whole page.new rest) }
    ensures up_to { (first : Option (List ℕ)) (whole rest : List ℕ)
        → IsOnPage first (O.written out.old) whole page.old rest → AppendsUpTo first (O.written out.new) whole }
    ensures counts { PutCounts (O.faults out.old) (O.faults out.new) result }
{
    if page.text().len() < FULL {
        return Ok(());
    }
    out.write_all(page.text())?;
    page.clear();
    Ok(())
}
