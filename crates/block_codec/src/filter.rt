//! Filters.
ghost use Rattle.block_codec.specs.Filters.{IsStorableFilter, IsFilterBlock};

use crate::block::Named;
use crate::names::action_word;
use flow_fields::Key;
use visit_room::Hit;

// The kind of block.
const FILTER: u64 = 1;

/// A filter of a mask, with the actions that it runs, in order.
#[derive(Drop)]
pub struct StoredFilter {
    pub handle: u32,
    pub key: Key<14>,
    pub actions: Hit,
}

/// Writes a filter whose handle isn't 0, whose actions have serials from 1 to `MADE_MAX` and slots
/// below `ACTION_SLOTS`.
pub fn write_filter(stored: &StoredFilter, link: Option<u32>, words: &mut [u64; 40])
    requires { IsStorableFilter stored.now }
    ensures { IsFilterBlock words.new (stored.now, link) }
{
    let actions = stored.actions.actions();
    let mut named = Named::of_kind(FILTER);
    named.push(u64::from(stored.handle));
    named.push(actions.len() as u64);
    named.push_all(&stored.key.words);
    for action in actions {
        named.push(action_word(*action));
    }
    named.write(link, words);
}
