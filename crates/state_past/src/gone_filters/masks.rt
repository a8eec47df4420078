//! A mask by its words.
ghost use Rattle.std.specs.Prelude.{◌≡◌, None, IfSome};
ghost use Rattle.filter_state.specs.States.{Row, State};
ghost use Rattle.filter_state.specs.Tables.{mask_row};
ghost use Rattle.filter_lists.specs.Spells.{Spells};
ghost use Rattle.state_past.specs.OfGoneFilters.Marks.{IsMaskRow};

use crate::gone_filters::tables::table_at;
use filter_lists::Lists;
use flow_fields::Key;
use hook_lists::mask_at;
use tc_base::Hook;

/// The serial of the mask with those words in the table of a hook, chain and pref, where it stands.
pub fn mask_serial(lists: &Lists, hook: Hook, chain: u32, pref: u32, words: &Key<14>) -> Option<u32>
    ensures some { IfSome result (λ serial. (s : State) → Spells lists.now s
        → IsMaskRow serial (mask_row hook chain pref words.now.words s.rows)) }
    ensures none { result ≡ None → (s : State) → Spells lists.now s
        → mask_row hook chain pref words.now.words s.rows ≡ None }
{
    let tables = lists.tables(hook);
    let place = lists.find_table(hook, chain, pref)?;
    let table = table_at(tables, place);
    let at = table.masks.find_mask(words)?;
    Some(mask_at(&table.masks, at).serial())
}
