//! The words of a line one by one, each read off the front of what is left.
ghost use Rattle.std.specs.Prelude.{◌≡◌, ◌==◌, ◌<◌, ◌≤◌, not, position, List, [], ◌∷◌, ℕ, length, drop, take};
ghost use Rattle.std.specs.Prelude.{IfSome, if◌then◌else◌};
ghost use Rattle.std.specs.Int.{w64, trailing_zeros};
ghost use Rattle.std.specs.List.{position_or_len};
ghost use Rattle.std.specs.Borrow.{Bor};
ghost use Rattle.std.specs.Option.{option_map_or};
ghost use Rattle.tc_words.specs.Lines.{is_blank, ends_word, words_of};

use crate::cuts::is_blank;
use std::simd::prelude::*;

// How many bytes are looked at in one step.
const LANES: usize = 16;

// Most bytes of a word stand above `#`, so that one comparison is enough for them.
fn ends_word(byte: u8) -> bool
    ensures { result ≡ ends_word byte }
{
    byte <= b'#' && (is_blank(byte) || byte == b'#')
}

// The place of the first byte that ends a word.
fn end_place(text: &[u8]) -> Option<usize>
    ensures { result ≡ position ends_word text.now }
{
    text.iter().position(|b| ends_word(*b))
}

// How many bytes stand before the first one that ends a word, byte by byte.
fn counted_length(text: &[u8]) -> usize
    ensures value { result ≡ position_or_len ends_word text.now }
    ensures within { result ≤ length text.now }
{
    end_place(text).unwrap_or(text.len())
}

// The place of the lowest bit that is set, or 16.
#[inline(always)]
fn first_set(mask: u64) -> usize
    ensures { result ≡ (if mask == 0 then 16 else trailing_zeros w64 mask) }
{
    if mask == 0 {
        LANES
    } else {
        mask.trailing_zeros() as usize
    }
}

// How many of the first 16 bytes stand before the first of them that ends a word.
#[inline(always)]
fn near_length(text: &[u8]) -> usize
    requires { 16 ≤ length text.now }
    ensures { result ≡ position_or_len ends_word (take 16 text.now) }
{
    let bytes = u8x16::from_slice(text);
    let ends = bytes.simd_eq(u8x16::splat(b' '))
        | bytes.simd_eq(u8x16::splat(b'\t'))
        | bytes.simd_eq(u8x16::splat(b'#'));
    first_set(ends.to_bitmask())
}

// How many bytes stand before the first one that ends a word. Most words are short, so that one look at 16
// bytes finds their end.
fn word_length(text: &[u8]) -> usize
    ensures value { result ≡ position_or_len ends_word text.now }
    ensures within { result ≤ length text.now }
{
    if text.len() >= LANES {
        let near = near_length(text);
        if near < LANES {
            return near;
        }
    }
    counted_length(text)
}

// The place of the first byte that is no blank.
fn other_place(text: &[u8]) -> Option<usize>
    ensures { result ≡ position (λ b. not (is_blank b)) text.now }
{
    text.iter().position(|b| !is_blank(*b))
}

// How many blanks stand in front.
fn blank_length(text: &[u8]) -> usize
    ensures value { result ≡ position_or_len (λ b. not (is_blank b)) text.now }
    ensures within { result ≤ length text.now }
{
    other_place(text).unwrap_or(text.len())
}

// A text without the blanks in front.
fn without_blanks(text: &[u8]) -> &[u8]
    ensures { result.now ≡ drop (position_or_len (λ b. not (is_blank b)) text.now) text.now }
{
    &text[blank_length(text)..]
}

/// The first word of a piece of a line, and what stands behind it.
///
/// `None` where there is no word: where nothing but blanks stands before the comment or the end. A word has
/// one byte or more, and may have a carriage return: `lines` drops the one at the end of a line. A `#` begins
/// the comment inside a word too.
pub fn first_word(rest: &[u8]) -> Option<(&[u8], &[u8])>
    ensures words { words_of rest.now
        ≡ option_map_or (λ (parts : Bor (List ℕ) × Bor (List ℕ)). parts.0.now
        ∷ words_of parts.1.now) result [] }
    ensures shorter { IfSome result (λ parts. length parts.1.now < length rest.now) }
{
    let text = without_blanks(rest);
    let length = word_length(text);
    if length == 0 {
        return None;
    }
    Some((&text[..length], &text[length..]))
}

/// Whether a line has a word: whether it is neither blank nor a comment.
pub fn has_words(line: &[u8]) -> bool
    ensures { result ≡ not (length (words_of line.now) == 0) }
{
    match without_blanks(line) {
        [] => false,
        [byte, ..] => *byte != b'#',
    }
}
