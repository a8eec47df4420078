//! A mask of the lists, by its words.
ghost use Rattle.std.specs.Prelude.{◌≡◌, ℕ, None, IfSome};
ghost use Rattle.filter_state.specs.States.{State};
ghost use Rattle.filter_state.specs.Tables.{mask_row};
ghost use Rattle.filter_tables.specs.SeenMask.{plain_mask};
ghost use Rattle.filter_lists.specs.Spells.{Spells};
ghost use Rattle.shared_hook.specs.OfDeskEdits.OfMoves.Tells.{IsMaskIn, IsAnsweredMask, IsListOf};

use desk_parts::finding::table_at;
use filter_lists::{Done, FilterLine, Lists, MaskList};
use flow_fields::Key;
use hook_lists::mask_at;

// The mask with those words, in the table of the line's chain that has the pref, where it is there.
fn find_list<'a>(
    lists: &'a Lists,
    line: &FilterLine,
    pref: u32,
    words: &Key<14>,
) -> Option<&'a MaskList>
    ensures some { IfSome result (λ list. (s : State) → Spells lists.now s → (serial : ℕ)
        × IsMaskIn s line.now pref words.now.words serial
        × IsListOf s line.now.hook serial (plain_mask list.now)) }
    ensures none { result ≡ None → (s : State) → Spells lists.now s
        → mask_row line.now.hook line.now.chain pref words.now.words s.rows ≡ None }
{
    let tables = lists.tables(line.hook);
    let place = lists.find_table(line.hook, line.chain, pref)?;
    let table = table_at(tables, place);
    let at = table.masks.find_mask(words)?;
    Some(mask_at(&table.masks, at))
}

/// The mask with those words, in the table of the line's chain that has the pref which was answered.
pub(crate) fn list_of<'a>(
    lists: &'a Lists,
    line: &FilterLine,
    done: &Done,
    words: &Key<14>,
) -> &'a MaskList
    requires there { (s : State) × (serial : ℕ) × Spells lists.now s
        × IsAnsweredMask s line.now done.now words.now.words serial }
    ensures { (s : State) (serial : ℕ) → Spells lists.now s
        → IsAnsweredMask s line.now done.now words.now.words serial
        → IsListOf s line.now.hook serial (plain_mask result.now) }
{
    match done {
        Done::Filter { pref, .. } => match find_list(lists, line, *pref, words) {
            Some(list) => list,
            None => unreachable!(),
        },
        _ => unreachable!(),
    }
}
