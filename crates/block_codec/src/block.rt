//! What all blocks have in common: the words that have a name, zeros, and the link.
ghost use Rattle.std.specs.Prelude.{◌≡◌, ℕ, ◌%◌, ◌/◌, ◌^◌, ◌<◌, ◌≤◌, ◌↔◌, IsTrue, length, slice_index};
ghost use Rattle.std.specs.Prelude.{slice_range};
ghost use Rattle.block_codec.specs.Blocks.{both, plus_one, IsBlankFrom};

use arrayvec::ArrayVec;
use flow_fields::Key;
use std::marker::Model;

// The word with the link.
pub(crate) const LINK: usize = 39;

// Where the key of a filter and of a mask begins, and where it ends.
const KEY: usize = 3;

pub(crate) const BEHIND_KEY: usize = 17;

// A word with these halves. A caller that has the low one behind a reference learns that it fits.
pub(crate) fn both_halves(low: u32, high: u32) -> u64
    ensures word { result ≡ both low high }
    ensures fits { low < 2 ^ 32 }
{
    u64::from(low) + (u64::from(high) << 32)
}

pub(crate) fn low_half(word: u64) -> u32
    ensures { result ≡ word % 2 ^ 32 }
{
    (word % (1 << 32)) as u32
}

pub(crate) fn high_half(word: u64) -> u32
    ensures { result ≡ word / 2 ^ 32 }
{
    (word >> 32) as u32
}

// The number plus 1, or 0.
pub(crate) fn number_plus_one(number: Option<u32>) -> u64
    ensures { result ≡ plus_one number }
{
    match number {
        None => 0,
        Some(number) => u64::from(number) + 1,
    }
}

// The number that a link's word holds.
pub(crate) fn number_before(word: u64) -> Option<u32>
    requires { word ≤ 2 ^ 32 }
    ensures { plus_one result ≡ word }
{
    if word == 0 {
        None
    } else {
        Some((word - 1) as u32)
    }
}

// The key of a filter or a mask.
pub(crate) fn key_in(words: &[u64; 40]) -> Key<14>
    ensures { result.words ≡ slice_range words.now 3 17 }
{
    let mut key = Key::new();
    key.words.copy_from_slice(&words[KEY..BEHIND_KEY]);
    key
}

// The words from a place on are 0, but for the link.
pub(crate) fn is_blank_from(words: &[u64; 40], at: usize) -> bool
    requires { at ≤ 39 }
    ensures { IsTrue result ↔ IsBlankFrom at words.now }
{
    words[at..LINK].iter().all(|word| *word == 0)
}

// The words of a block that have a name, from the first on.
#[derive(Drop)]
pub(crate) struct Named {
    words: ArrayVec<u64, 39>,
}

impl Model for Named {
    ghost use Rattle.std.specs.Prelude.{◌≤◌, ℕ, List, length};

    ghost Value = { List ℕ };

    ghost view = { λ n. n.words.items };

    ghost invariant = { λ n. length n.words.items ≤ 39 };
}

impl Named {
    ghost use Rattle.std.specs.Prelude.{◌≡◌, ◌<◌, ◌≤◌, ◌+◌, ◌++◌, ◌∷◌, [], length};
    ghost use Rattle.block_codec.specs.Blocks.{block};

    // The first word is the kind of block.
    pub(crate) fn of_kind(kind: u64) -> Named
        ensures { result ≡ kind ∷ [] }
    {
        let mut words = ArrayVec::new();
        words.push(kind);
        Named { words }
    }

    pub(crate) fn push(&mut self, word: u64)
        requires { length self.old < 39 }
        ensures { self.new ≡ self.old ++ word ∷ [] }
    {
        self.words.push(word);
    }

    pub(crate) fn push_all(&mut self, words: &[u64])
        requires { length self.old + length words.now ≤ 39 }
        ensures { self.new ≡ self.old ++ words.now }
    {
        match self.words.try_extend_from_slice(words) {
            Ok(()) => {}
            Err(_) => unreachable!(),
        }
    }

    // Writes the block with this link.
    pub(crate) fn write(self, link: Option<u32>, words: &mut [u64; 40])
        ensures { words.new ≡ block self link }
    {
        let named = self.words.as_slice();
        words.fill(0);
        words[..named.len()].copy_from_slice(named);
        words[LINK] = number_plus_one(link);
    }
}
