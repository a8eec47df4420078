//! A quick no: whether a mask may have a filter with the key of a frame.
ghost use Rattle.std.specs.Prelude.{◌≡◌, ◌<◌, ◌≤◌, ◌/◌, ◌%◌, ◌^◌, ◌==◌, ◌||◌, ℕ, List, true, false};
ghost use Rattle.std.specs.Prelude.{length, get_or, min, IfSome, IfNone};
ghost use Rattle.std.specs.Int.{bit_at};
ghost use Rattle.std.specs.Str.{bytes_eq};
ghost use Rattle.flow_mask.specs.Masks.{each_and};
ghost use Rattle.flow_mask.specs.Places.{used_before, HasPlaces};
ghost use Rattle.filter_index.specs.Sieves.{weighed_at, sum_of, mark_of, lets_through, AreChosen, LooksAt};
ghost use Rattle.filter_index.specs.Sieves.{FitsSieve, IsWithin};
ghost use Rattle.filter_index.specs.declared.digests.TheConstants.{SIEVE_WORDS};

use crate::digests::{FACTORS, SIEVE_WORDS};
use flow_fields::Key;
use std::marker::Model;

/// Which keys the filters of a mask may have, as far as a few words and 64 marks tell it.
#[derive(Drop)]
pub struct Sieve {
    // A bit for each mark that is set.
    marks: u64,
    // Words of the mask that aren't 0, and their places; the first `count`.
    words: [u64; SIEVE_WORDS],
    places: [u8; SIEVE_WORDS],
    count: u32,
}

impl Model for Sieve {
    ghost use Rattle.std.specs.Prelude.{ℕ, ◌<◌, ◌≤◌, get_or};
    ghost use Rattle.filter_index.specs.Sieves.{MarkedPlaces};
    ghost use Rattle.filter_index.specs.declared.digests.TheConstants.{SIEVE_WORDS};

    ghost Value = { MarkedPlaces };

    ghost view = { λ s. record { places = s.places; words = s.words; count = s.count; marks = s.marks } };

    ghost invariant = { λ s. (s.count ≤ SIEVE_WORDS)
        × ((j : ℕ) → j < s.count → get_or s.places j 0 < 14) };
}

impl Sieve {
    /// A sieve for the keys under that mask, which lets none through yet.
    pub fn new(mask: &Key<14>) -> Sieve
        ensures looks { LooksAt mask.now.words result }
        ensures marks { (key : List ℕ) → lets_through result key ≡ false }
    {
        let mut words = [0; SIEVE_WORDS];
        let mut places = [0; SIEVE_WORDS];
        let count = choose(&mask.words, &mut places, &mut words);
        Sieve {
            marks: 0,
            words,
            places,
            count,
        }
    }

    /// Sets the mark of that key: from now on keys of that mark are let through too.
    pub fn add(&mut self, key: &Key<14>)
        ensures looks { (mask : List ℕ) → LooksAt mask self.old → LooksAt mask self.new }
        ensures marks { (other : List ℕ) → lets_through self.new other
            ≡ (lets_through self.old other || mark_of self.old other == mark_of self.old key.now.words) }
    {
        self.marks |= 1 << mark(self.sum(key));
    }

    /// Whether the mark of that key is set. It reads at most four words of the key.
    #[inline]
    pub fn lets_through(&self, key: &Key<14>) -> bool
        ensures { result ≡ lets_through self.now key.now.words }
    {
        self.has_mark(mark(self.sum(key)))
    }

    /// What the words of that key that are looked at come to, if its mark is set.
    #[inline]
    pub fn sift(&self, key: &Key<14>) -> Option<u64>
        ensures none { IfNone result (lets_through self.now key.now.words ≡ false) }
        ensures some { IfSome result (λ sum. sum ≡ sum_of self.now key.now.words) }
    {
        let sum = self.sum(key);
        if self.has_mark(mark(sum)) {
            Some(sum)
        } else {
            None
        }
    }

    /// Whether a sieve of that mask looks at each of its words that isn't 0, and the key is 0 in all others.
    pub fn covers(mask: &Key<14>, key: &Key<14>) -> bool
        ensures fits { result ≡ true → FitsSieve mask.now.words }
        ensures within { result ≡ true → IsWithin mask.now.words key.now.words }
    {
        is_within(&mask.words, &key.words)
    }

    /// Whether the words of a frame, under the mask, are those of the key. It reads the words that the sieve
    /// looks at.
    #[inline]
    pub(crate) fn agrees(&self, mask: &[u64], frame: &[u64], key: &[u64]) -> bool
        requires mask { length mask.now ≡ 14 }
        requires frame { length frame.now ≡ 14 }
        requires key { length key.now ≡ 14 }
        requires listed { HasPlaces mask.now 14 self.now.places self.now.count }
        requires within { IsWithin mask.now key.now }
        ensures { result ≡ bytes_eq key.now (each_and frame.now mask.now) }
    {
        agree(&self.places, self.count as usize, mask, frame, key)
    }

    // What the words of that key that are looked at come to.
    #[inline]
    fn sum(&self, key: &Key<14>) -> u64
        ensures { result ≡ sum_of self.now key.now.words }
    {
        weigh(&self.places, &self.words, self.count as usize, &key.words)
    }

    // Whether that mark is set.
    #[inline]
    fn has_mark(&self, mark: u32) -> bool
        requires { mark < 64 }
        ensures { result ≡ (bit_at self.now.marks mark == 1) }
    {
        (self.marks >> mark) & 1 == 1
    }
}

// The mark of a key whose words come to that.
#[inline]
fn mark(sum: u64) -> u32
    ensures mark { result ≡ sum / 2 ^ 58 }
    ensures below { result < 64 }
{
    (sum >> 58) as u32
}

// The words at those places, each under its word and times the factor of its place, added up.
#[inline]
fn weigh(places: &[u8], words: &[u64], count: usize, key: &[u64]) -> u64
    requires key { length key.now ≡ 14 }
    requires places { count ≤ length places.now }
    requires words { count ≤ length words.now }
    requires within { (j : ℕ) → j < count → get_or places.now j 0 < 14 }
    ensures { result ≡ weighed_at places.now words.now key.now count % 2 ^ 64 }
{
    let mut sum: u64 = 0;
    for n in 0..count {
        let place = places[n] as usize;
        let word = key[place] & words[n];
        sum = sum.wrapping_add(word.wrapping_mul(FACTORS[place]));
    }
    sum
}

// Puts the first words of the mask that aren't 0, with their places, and answers how many they are.
fn choose(mask: &[u64], places: &mut [u8], words: &mut [u64]) -> u32
    requires mask { length mask.now ≡ 14 }
    requires places { length places.old ≡ SIEVE_WORDS }
    requires words { length words.old ≡ SIEVE_WORDS }
    ensures places { length places.new ≡ SIEVE_WORDS }
    ensures words { length words.new ≡ SIEVE_WORDS }
    ensures count { result ≡ min SIEVE_WORDS (used_before mask.now 14) }
    ensures chosen { AreChosen mask.now places.new words.new result }
    ensures listed { FitsSieve mask.now → HasPlaces mask.now (length mask.now) places.new result }
{
    let mut count = 0;
    for i in 0..14 {
        if count < SIEVE_WORDS && mask[i] != 0 {
            places[count] = i as u8;
            words[count] = mask[i];
            count += 1;
        }
    }
    count as u32
}

// Whether the mask has no more words that aren't 0 than a sieve looks at, and the key is 0 in all others.
fn is_within(mask: &[u64], key: &[u64]) -> bool
    requires mask { length mask.now ≡ 14 }
    requires key { length key.now ≡ 14 }
    ensures fits { result ≡ true → FitsSieve mask.now }
    ensures within { result ≡ true → IsWithin mask.now key.now }
{
    let mut used = 0;
    for k in 0..14 {
        if mask[k] != 0 {
            used += 1;
        } else if key[k] != 0 {
            return false;
        }
    }
    used <= SIEVE_WORDS
}

// Whether the words of a frame at those places, under the mask, are the key's.
#[inline]
fn agree(places: &[u8], count: usize, mask: &[u64], frame: &[u64], key: &[u64]) -> bool
    requires mask { length mask.now ≡ 14 }
    requires frame { length frame.now ≡ 14 }
    requires key { length key.now ≡ 14 }
    requires count { count ≤ length places.now }
    requires listed { HasPlaces mask.now 14 places.now count }
    requires within { IsWithin mask.now key.now }
    ensures { result ≡ bytes_eq key.now (each_and frame.now mask.now) }
{
    for n in 0..count {
        let place = places[n] as usize;
        if frame[place] & mask[place] != key[place] {
            return false;
        }
    }
    true
}
