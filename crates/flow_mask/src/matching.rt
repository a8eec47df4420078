//! Keys under masks.
ghost use Rattle.std.specs.Prelude.{◌≡◌, ℕ, List, ◌↔◌, IsTrue, length};
ghost use Rattle.flow_fields.specs.Values.{values_of, IsTidy};
ghost use Rattle.flow_mask.specs.Masks.{each_and, is_match};

use flow_fields::Key;

/// The key under the mask: its words, and so the values of its fields, AND the mask's.
#[inline]
pub fn masked<const N: usize>(key: &Key<N>, mask: &Key<N>) -> Key<N>
    ensures words { result.words ≡ each_and key.now.words mask.now.words }
    ensures fields { values_of result.words ≡ each_and (values_of key.now.words) (values_of mask.now.words) }
    ensures tidy { IsTidy mask.now.words → IsTidy result.words }
    ensures under { each_and result.words mask.now.words ≡ result.words }
{
    let mut under = *key;
    mask_slice(&mut under.words, &mask.words);
    under
}

// The loop of `masked`.
#[inline]
fn mask_slice(words: &mut [u64], mask: &[u64])
    requires { length mask.now ≡ length words.old }
    ensures { words.new ≡ each_and words.old mask.now }
{
    for i in 0..mask.len() {
        words[i] &= mask[i];
    }
}

/// Whether the words of a packet's key, under the mask, are those of a filter's key. So are then the values
/// of all fields; and where mask and key have no stray bit, the other way round too.
#[inline]
pub fn matches<const N: usize>(frame_key: &Key<N>, mask: &Key<N>, key: &Key<N>) -> bool
    ensures words { IsTrue result ↔ (each_and frame_key.now.words mask.now.words ≡ key.now.words) }
    ensures test { result ≡ is_match frame_key.now.words mask.now.words key.now.words }
    ensures fields { IsTidy mask.now.words → IsTidy key.now.words →
        (IsTrue result
        ↔ (each_and (values_of frame_key.now.words) (values_of mask.now.words) ≡ values_of key.now.words)) }
{
    slices_match(&frame_key.words, &mask.words, &key.words)
}

// The loop of `matches`.
#[inline]
fn slices_match(frame: &[u64], mask: &[u64], key: &[u64]) -> bool
    requires frame { length frame.now ≡ length key.now }
    requires mask { length mask.now ≡ length key.now }
    ensures words { IsTrue result ↔ (each_and frame.now mask.now ≡ key.now) }
    ensures test { result ≡ is_match frame.now mask.now key.now }
{
    for i in 0..key.len() {
        if frame[i] & mask[i] != key[i] {
            return false;
        }
    }
    true
}

/// Equal words under a mask are equal values under it, field by field, where mask and key have no stray bit.
///
/// The function does nothing: its contract is the law.
pub fn words_are_fields()
    ensures { (frame mask key : List ℕ) → length frame ≡ length key → length mask ≡ length key → IsTidy mask
        → IsTidy key →
        (each_and frame mask ≡ key) ↔ (each_and (values_of frame) (values_of mask) ≡ values_of key) }
{}
