//! Actions.
ghost use Rattle.std.specs.Prelude.{◌≡◌, ◌↔◌, IsTrue};
ghost use Rattle.block_codec.specs.Blocks.{IsTheOnly};
ghost use Rattle.block_codec.specs.Actions.{IsStorableAction, IsActionBlock};
ghost use Rattle.block_codec.specs.Reading.{HasAction};

use crate::block::{LINK, Named, both_halves, high_half, is_blank_from, low_half, number_before};
use crate::parameters::{params_words, read_params};
use act_kinds::Params;
use act_registry::MADE_MAX;

// The kind of block.
const ACTION: u64 = 4;

// Where the parameters begin, and where they end.
const PARAMS: usize = 2;

const BEHIND_PARAMS: usize = 7;

/// An action, by the serial that a run gave it, and by its kind and index.
#[derive(Drop)]
pub struct StoredAction {
    pub serial: u32,
    pub index: u32,
    pub params: Params,
}

/// Writes an action whose serial is from 1 to `MADE_MAX`, whose index isn't 0, and whose control goes to a
/// chain or a place of 268,435,455 at most.
pub fn write_action(stored: &StoredAction, link: Option<u32>, words: &mut [u64; 40])
    requires { IsStorableAction stored.now }
    ensures { IsActionBlock words.new (stored.now, link) }
{
    let mut named = Named::of_kind(ACTION);
    named.push(both_halves(stored.serial, stored.index));
    named.push_all(&params_words(stored.params));
    named.write(link, words);
}

// The words beside the parameters are those of an action.
fn has_action(words: &[u64; 40]) -> bool
    ensures { IsTrue result ↔ HasAction words.now }
{
    words[0] == ACTION
        && 1 <= low_half(words[1])
        && low_half(words[1]) <= MADE_MAX
        && 1 <= high_half(words[1])
        && is_blank_from(words, BEHIND_PARAMS)
        && words[LINK] <= 1 << 32
}

/// The action and the link whose words these are, and `None` exactly where they are those of no action.
pub fn read_action(words: &[u64; 40]) -> Option<(StoredAction, Option<u32>)>
    ensures { IsTheOnly (IsActionBlock words.now) result }
{
    if !has_action(words) {
        return None;
    }
    let stored = StoredAction {
        serial: low_half(words[1]),
        index: high_half(words[1]),
        params: read_params(&words[PARAMS..BEHIND_PARAMS])?,
    };
    Some((stored, number_before(words[LINK])))
}
