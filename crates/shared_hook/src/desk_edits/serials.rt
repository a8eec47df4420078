//! The serial of the mask of a line.
ghost use Rattle.std.specs.Prelude.{◌≡◌, ◌<◌, ◌^◌, ℕ, Some, None, IfSome};
ghost use Rattle.filter_state.specs.States.{Row, State};
ghost use Rattle.filter_state.specs.Tables.{mask_row};
ghost use Rattle.filter_lists.specs.Spells.{Spells};
ghost use Rattle.shared_hook.specs.OfDeskEdits.Lines.{IsLineMask};

use desk_parts::finding::table_at;
use filter_lists::{Done, FilterLine, Lists};
use hook_lists::mask_at;

// The serial of the mask with the line's words, in the table of its chain and that pref, where it is there.
fn find_serial(lists: &Lists, line: &FilterLine, pref: u32) -> Option<u32>
    ensures some { IfSome result (λ serial. (s : State) → Spells lists.now s → (row : Row)
        × (mask_row line.now.hook line.now.chain pref line.now.mask.words s.rows ≡ Some row)
        × (row.mask_serial ≡ serial)) }
    ensures fits { IfSome result (λ serial. serial < 2 ^ 32) }
    ensures none { result ≡ None → (s : State) → Spells lists.now s
        → mask_row line.now.hook line.now.chain pref line.now.mask.words s.rows ≡ None }
{
    let tables_of = lists.tables(line.hook);
    let place = lists.find_table(line.hook, line.chain, pref)?;
    let table = table_at(tables_of, place);
    let at = table.masks.find_mask(&line.mask)?;
    Some(mask_at(&table.masks, at).serial())
}

/// The serial of the mask into which an edit has put the filter of a line, as the lists have it.
pub(crate) fn serial_of(lists: &Lists, line: &FilterLine, done: &Done) -> u32
    requires there { (serial : ℕ) × IsLineMask lists.now line.now done.now serial }
    ensures serial { (serial : ℕ) → IsLineMask lists.now line.now done.now serial → result ≡ serial }
    ensures fits { result < 2 ^ 32 }
{
    match done {
        Done::Filter { pref, .. } => match find_serial(lists, line, *pref) {
            Some(serial) => serial,
            None => unreachable!(),
        },
        _ => unreachable!(),
    }
}
