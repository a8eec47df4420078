//! What a block reads as, without its link.
ghost use Rattle.std.specs.Prelude.{◌≡◌};
ghost use Rattle.block_codec.specs.OfReadings.Read.{mask_of_words, table_in, action_of_words};

use crate::{StoredAction, StoredMask, StoredTable, read_action, read_mask, read_table};

/// The mask whose words these are, or None where they are those of none.
pub fn mask_in(words: &[u64; 40]) -> Option<StoredMask>
    ensures { result ≡ mask_of_words words.now }
{
    match read_mask(words) {
        Some((mask, _)) => Some(mask),
        None => None,
    }
}

/// The table whose words these are, or None where they are those of none.
pub fn table_in(words: &[u64; 40]) -> Option<StoredTable>
    ensures { result ≡ table_in words.now }
{
    match read_table(words) {
        Some((table, _)) => Some(table),
        None => None,
    }
}

/// The action whose words these are, or None where they are those of none.
pub fn action_in(words: &[u64; 40]) -> Option<StoredAction>
    ensures { result ≡ action_of_words words.now }
{
    match read_action(words) {
        Some((action, _)) => Some(action),
        None => None,
    }
}
