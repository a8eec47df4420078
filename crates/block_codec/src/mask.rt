//! Masks.
ghost use Rattle.store_history.specs.declared.places.TheConstants.{ROWS};
ghost use Rattle.std.specs.Prelude.{◌≡◌, ◌+◌, ◌*◌, ◌/◌, ◌<◌, ◌≤◌, ◌↔◌, IsTrue, length, map, All, slice_index};
ghost use Rattle.std.specs.List.{range_with_len};
ghost use Rattle.flow_mask.specs.Sizes.{is_size};
ghost use Rattle.block_codec.specs.Blocks.{IsTheOnly};
ghost use Rattle.block_codec.specs.Masks.{rows_word, IsStorableMask, IsMaskBlock};
ghost use Rattle.block_codec.specs.Reading.{HasMask, HasMaskFront, HasRows, row_in, rows_of};

use crate::block::{BEHIND_KEY, LINK, Named, is_blank_from, key_in, number_before};
use crate::row_numbers::RowNumbers;
use flow_fields::Key;
use store_history::places::ROWS;

// The kind of block.
const MASK: u64 = 2;

// The words of the rows, and where they end.
const ROW_WORDS: usize = 16;

const BEHIND_ROWS: usize = BEHIND_KEY + ROW_WORDS;

// The rows of a mask at most.
const ROWS_MAX: usize = 64;

/// A mask of a table, with as many buckets as its size says, in rows of sixteen.
#[derive(Drop)]
pub struct StoredMask {
    pub serial: u32,
    pub size: u32,
    pub mask: Key<14>,
    pub rows: RowNumbers,
}

// The row at a place, and 0 where there is none.
fn row_at(rows: &[u32], place: usize) -> u64
    requires { All (λ row. row < ROWS) rows.now }
    ensures row { result ≡ slice_index rows.now place }
    ensures small { result < ROWS }
{
    match rows.get(place) {
        Some(row) => u64::from(*row),
        None => 0,
    }
}

// Four rows in a word.
fn rows_word(rows: &[u32], at: usize) -> u64
    requires rows { All (λ row. row < ROWS) rows.now }
    requires at { at < 16 }
    ensures { result ≡ rows_word rows.now at }
{
    let first = 4 * at;
    row_at(rows, first)
        + row_at(rows, first + 1) * (1 << 16)
        + row_at(rows, first + 2) * (1 << 32)
        + row_at(rows, first + 3) * (1 << 48)
}

/// Writes a mask whose size is a power of two from 16 to 1,024, with a row below `ROWS` for each sixteen
/// buckets.
pub fn write_mask(stored: &StoredMask, link: Option<u32>, words: &mut [u64; 40])
    requires { IsStorableMask stored.now }
    ensures { IsMaskBlock words.new (stored.now, link) }
{
    let rows = stored.rows.items();
    let mut named = Named::of_kind(MASK);
    named.push(u64::from(stored.serial));
    named.push(u64::from(stored.size));
    named.push_all(&stored.mask.words);
    for at in 0..ROW_WORDS {
        named.push(rows_word(rows, at));
    }
    named.write(link, words);
}

// The number at a place of the rows' words.
fn row_in(words: &[u64; 40], place: usize) -> u32
    requires { place < 64 }
    ensures { result ≡ row_in words.now place }
{
    let shift = 16 * (place % 4);
    ((words[BEHIND_KEY + place / 4] >> shift) % (1 << 16)) as u32
}

// The numbers at all places.
fn rows_in(words: &[u64; 40]) -> [u32; 64]
    ensures { result ≡ map (row_in words.now) (range_with_len 0 64) }
{
    let mut rows = [0; ROWS_MAX];
    for place in 0..ROWS_MAX {
        rows[place] = row_in(words, place);
    }
    rows
}

// A mask may have so many buckets.
fn is_size(number: u64) -> bool
    ensures { result ≡ is_size number }
{
    matches!(number, 16 | 32 | 64 | 128 | 256 | 512 | 1024)
}

fn are_rows(rows: &[u32]) -> bool
    ensures { IsTrue result ↔ All (λ row. row < ROWS) rows.now }
{
    rows.iter().all(|row| *row < ROWS)
}

fn are_none(rows: &[u32]) -> bool
    ensures { IsTrue result ↔ All (λ row. row ≡ 0) rows.now }
{
    rows.iter().all(|row| *row == 0)
}

// There are so many rows.
fn has_rows(words: &[u64; 40], count: usize) -> bool
    requires { count ≤ 64 }
    ensures { IsTrue result ↔ HasRows count words.now }
{
    let rows = rows_in(words);
    are_rows(&rows[..count]) && are_none(&rows[count..])
}

// The first words are those of a mask.
fn has_mask_front(words: &[u64; 40]) -> bool
    ensures { IsTrue result ↔ HasMaskFront words.now }
{
    words[0] == MASK && words[1] <= u64::from(u32::MAX) && is_size(words[2])
}

// All words are those of a mask.
fn has_mask(words: &[u64; 40]) -> bool
    ensures { IsTrue result ↔ HasMask words.now }
{
    has_mask_front(words)
        && has_rows(words, words[2] as usize / 16)
        && is_blank_from(words, BEHIND_ROWS)
        && words[LINK] <= 1 << 32
}

// The rows of a mask that has so many.
fn first_rows(words: &[u64; 40], count: usize) -> RowNumbers
    requires { count ≤ 64 }
    ensures { result ≡ rows_of count words.now }
{
    let mut rows = RowNumbers::new();
    for place in 0..count {
        rows.push(row_in(words, place));
    }
    rows
}

/// The mask and the link whose words these are, and `None` exactly where they are those of no mask.
pub fn read_mask(words: &[u64; 40]) -> Option<(StoredMask, Option<u32>)>
    ensures { IsTheOnly (IsMaskBlock words.now) result }
{
    if !has_mask(words) {
        return None;
    }
    let stored = StoredMask {
        serial: words[1] as u32,
        size: words[2] as u32,
        mask: key_in(words),
        rows: first_rows(words, words[2] as usize / 16),
    };
    Some((stored, number_before(words[LINK])))
}
