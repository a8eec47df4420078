//! A key under its mask, with the places that a comparison has to read.
ghost use Rattle.std.specs.Prelude.{◌≡◌, ℕ, List, ◌↔◌, ◌≤◌, IsTrue, length};
ghost use Rattle.flow_fields.specs.Values.{values_of, IsTidy};
ghost use Rattle.flow_mask.specs.Masks.{each_and};
ghost use Rattle.flow_mask.specs.Places.{MaskedWords, HasPlaces};

use crate::matching::masked;
use flow_fields::Key;
use std::marker::Model;

/// A mask of fourteen words and a key under it, with the places of the mask's words that aren't 0.
#[derive(Drop)]
pub struct MaskedKey {
    mask: Key<14>,
    key: Key<14>,
    // the first `count` are places, in order
    places: [u8; 14],
    count: usize,
}

impl Model for MaskedKey {
    ghost Value = { MaskedWords };

    ghost view = { λ m. record { mask = m.mask.words; key = m.key.words } };

    ghost invariant = { λ m. (each_and m.key.words m.mask.words ≡ m.key.words) × (m.count ≤ 14)
        × HasPlaces m.mask.words 14 m.places m.count };
}

impl MaskedKey {
    /// The mask, and the key put under it.
    pub fn new(key: &Key<14>, mask: &Key<14>) -> MaskedKey
        ensures mask { result.mask ≡ mask.now.words }
        ensures key { result.key ≡ each_and key.now.words mask.now.words }
        ensures fields { values_of result.key
            ≡ each_and (values_of key.now.words) (values_of mask.now.words) }
        ensures tidy { IsTidy mask.now.words → IsTidy result.key }
    {
        let mut places = [0; 14];
        let count = list_places(&mask.words, &mut places);
        MaskedKey {
            mask: *mask,
            key: masked(key, mask),
            places,
            count,
        }
    }

    /// Whether the words of a packet's key, under the mask, are those of this key, as `matches` says it. Only
    /// the words at which the mask isn't 0 are read.
    #[inline]
    pub fn matches(&self, frame_key: &Key<14>) -> bool
        ensures words { IsTrue result ↔ (each_and frame_key.now.words self.now.mask ≡ self.now.key) }
        ensures fields { IsTidy self.now.mask → IsTidy self.now.key →
            (IsTrue result
            ↔ (each_and (values_of frame_key.now.words) (values_of self.now.mask) ≡ values_of self.now.key)) }
    {
        match_at(
            &self.places,
            self.count,
            &frame_key.words,
            &self.mask.words,
            &self.key.words,
        )
    }
}

// Puts the places of the mask's words that aren't 0 first, and answers how many they are.
fn list_places(mask: &[u64], places: &mut [u8]) -> usize
    requires mask { length mask.now ≡ 14 }
    requires places { length places.old ≡ 14 }
    ensures length { length places.new ≡ 14 }
    ensures count { result ≤ 14 }
    ensures places { HasPlaces mask.now 14 places.new result }
{
    let mut count = 0;
    for i in 0..14 {
        if mask[i] != 0 {
            places[count] = i as u8;
            count += 1;
        }
    }
    count
}

// The loop of `MaskedKey::matches`.
#[inline]
fn match_at(places: &[u8], count: usize, frame: &[u64], mask: &[u64], key: &[u64]) -> bool
    requires frame { length frame.now ≡ 14 }
    requires mask { length mask.now ≡ 14 }
    requires key { length key.now ≡ 14 }
    requires count { count ≤ length places.now }
    requires under { each_and key.now mask.now ≡ key.now }
    requires places { HasPlaces mask.now 14 places.now count }
    ensures { IsTrue result ↔ (each_and frame.now mask.now ≡ key.now) }
{
    for n in 0..count {
        let i = places[n] as usize;
        if frame[i] & mask[i] != key[i] {
            return false;
        }
    }
    true
}
