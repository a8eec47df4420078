//! The filter of a table that decides.
ghost use Rattle.std.specs.Prelude.{◌≡◌, ◌≤◌, map, length};
ghost use Rattle.filter_tables.specs.SeenMask.{plain_mask};
ghost use Rattle.plain_walk.specs.Lookups.{IsLookedUp};

use filter_index::Filter;
use filter_lists::MaskList;
use flow_fields::Key;

/// What the look-ups in a table's masks come to.
#[derive(Clone, Copy)]
pub(crate) enum LookUp<'a> {
    Met(&'a Filter),
    Missed,
    /// They need more visits than are left.
    Spent,
}

/// Looks a frame of that key up in one mask after the other, up to the first that has a filter for it. Each
/// takes one of the visits that are left.
pub(crate) fn look_up<'a>(masks: &'a [MaskList], key: &Key<14>, left: &mut usize) -> LookUp<'a>
    ensures looked { IsLookedUp key.now.words (map plain_mask masks.now) left.old result left.new }
    ensures fewer { left.new ≤ left.old }
{
    for (place, list) in masks.iter().enumerate() {
        if place == *left {
            return LookUp::Spent;
        }
        if let Some(filter) = list.met(key) {
            *left -= place + 1;
            return LookUp::Met(filter);
        }
    }
    *left -= masks.len();
    LookUp::Missed
}

/// The words of a key: fourteen, by its type.
pub(crate) fn words_of(key: &Key<14>) -> &[u64]
    ensures same { result.now ≡ key.now.words }
    ensures count { length key.now.words ≡ 14 }
{
    &key.words
}
