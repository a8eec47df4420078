//! The hash of a key.
ghost use Rattle.std.specs.Prelude.{◌≡◌};
ghost use Rattle.flow_mask.specs.Hashes.{mix, hash_of};

use flow_fields::Key;

/// What the hash of no words is.
const START: u64 = 0x9E37_79B9_7F4A_7C15;

/// An odd number with bits all over, so that each bit of a word changes many of the product.
const FACTOR: u64 = 0xFF51_AFD7_ED55_8CCD;

// One word more in a hash. The product carries bits upwards only; the shift brings them down again.
#[inline]
fn mix(hash: u64, word: u64) -> u64
    ensures { result ≡ mix hash word }
{
    let product = (hash ^ word).wrapping_mul(FACTOR);
    product ^ (product >> 32)
}

/// The hash of a key: each word in turn is mixed into the hash so far.
#[inline]
pub fn hash<const N: usize>(key: &Key<N>) -> u64
    ensures { result ≡ hash_of key.now.words }
{
    key.words.iter().fold(START, |hash, word| mix(hash, *word))
}
