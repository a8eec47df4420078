//! The name of a slot.
ghost use Rattle.std.specs.Prelude.{◌≡◌, ◌∷◌, length};

use flow_fields::Key;

/// The name of a slot: the serial of a mask, and the fourteen words of a key.
pub fn slot_name(mask: u32, key: &Key<14>) -> [u64; 15]
    ensures { result ≡ mask ∷ key.now.words }
{
    let mut name = [mask as u64; 15];
    name[1..].copy_from_slice(&key.words);
    name
}

/// The words of a key: fourteen, by its type.
pub(crate) fn key_words(key: &Key<14>) -> &[u64]
    ensures same { result.now ≡ key.now.words }
    ensures count { length key.now.words ≡ 14 }
{
    &key.words
}
