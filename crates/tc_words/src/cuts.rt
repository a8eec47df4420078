//! Where a byte string is to be cut.
ghost use Rattle.std.specs.Prelude.{◌≡◌, ◌==◌, ◌+◌, List, ℕ, length, position, Option, take, drop};
ghost use Rattle.std.specs.Option.{option_map};
ghost use Rattle.std.specs.Borrow.{Bor};
ghost use Rattle.tc_words.specs.Lines.{is_blank, cut_once};

use memchr::memchr;

// The place of the first such byte.
pub(crate) fn place_of(bytes: &[u8], byte: u8) -> Option<usize>
    ensures { result ≡ position (λ b. b == byte) bytes.now }
{
    memchr(byte, bytes)
}

/// What stands before the first such byte, and what behind it. The byte itself is in neither, and either may
/// be empty.
///
/// `None` where there is no such byte.
pub fn cut_at(bytes: &[u8], byte: u8) -> Option<(&[u8], &[u8])>
    ensures { option_map (λ (parts : Bor (List ℕ) × Bor (List ℕ)). (parts.0.now, parts.1.now)) result
        ≡ cut_once byte bytes.now }
{
    match place_of(bytes, byte) {
        Some(at) => Some((&bytes[..at], &bytes[at + 1..])),
        None => None,
    }
}

// The same for a text in which the byte stands near the front, if at all: it is gone over byte by byte.
pub(crate) fn cut_near(bytes: &[u8], byte: u8) -> Option<(&[u8], &[u8])>
    ensures { option_map (λ (parts : Bor (List ℕ) × Bor (List ℕ)). (parts.0.now, parts.1.now)) result
        ≡ cut_once byte bytes.now }
{
    match near_place(bytes, byte) {
        Some(at) => Some((&bytes[..at], &bytes[at + 1..])),
        None => None,
    }
}

fn near_place(bytes: &[u8], byte: u8) -> Option<usize>
    ensures { result ≡ position (λ b. b == byte) bytes.now }
{
    bytes.iter().position(|b| *b == byte)
}

pub(crate) fn is_blank(byte: u8) -> bool
    ensures { result ≡ is_blank byte }
{
    byte == b' ' || byte == b'\t'
}
