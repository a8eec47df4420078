//! Names of actions and masks in a word.
ghost use Rattle.std.specs.Prelude.{◌≡◌, ◌↔◌, IsTrue};
ghost use Rattle.block_codec.specs.Names.{action_word, mask_word, mask_in, IsMaskName};

use crate::block::{both_halves, high_half, low_half};
use store_history::places::MASK_SLOTS;
use visit_room::{ActionName, MaskName};

pub(crate) fn action_word(name: ActionName) -> u64
    ensures { result ≡ action_word name }
{
    both_halves(name.serial, name.slot)
}

pub(crate) fn mask_word(name: MaskName) -> u64
    ensures { result ≡ mask_word name }
{
    both_halves(name.serial, name.slot)
}

// The mask that a word names.
pub(crate) fn mask_in(word: u64) -> MaskName
    ensures { result ≡ mask_in word }
{
    MaskName {
        serial: low_half(word),
        slot: high_half(word),
    }
}

// The numbers of a mask's name are within their limits.
pub(crate) fn is_mask(name: MaskName) -> bool
    ensures { IsTrue result ↔ IsMaskName name }
{
    name.slot < MASK_SLOTS
}
