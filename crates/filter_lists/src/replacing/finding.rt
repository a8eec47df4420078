//! The filter that a line is to replace.
ghost use Rattle.std.specs.Prelude.{◌≡◌, ◌<◌, length, Some};
ghost use Rattle.filter_tables.specs.Places.{item_at};
ghost use Rattle.filter_tables.specs.Seen.{plain_table};
ghost use Rattle.filter_tables.specs.Rows.{tables_on};
ghost use Rattle.hook_lists.specs.States.{both_of, AreKept};
ghost use Rattle.filter_lists.specs.OfReplacing.Replacements.{IsFound};

use crate::replacing::replacement::Old;
use filter_state::FilterLine;
use filter_tables::FilterTable;
use hook_lists::{Kept, find_table, table_at};
use tc_base::Hook;

/// The filter of the line's hook, chain, pref and handle, if it is there.
pub fn find_old(kept: &Kept, line: &FilterLine) -> Option<Old>
    requires { AreKept kept.now }
    ensures { IsFound kept.now line.now result }
{
    let pref = line.pref.unwrap_or(0);
    let handle = line.handle.unwrap_or(0);
    let table = find_table(kept, line.hook, line.chain, pref)?;
    let mask = table_at(kept, line.hook, table).masks.find_handle(handle)?;
    Some(Old {
        hook: line.hook,
        chain: line.chain,
        pref,
        handle,
        table,
        mask,
    })
}
