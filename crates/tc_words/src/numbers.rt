//! Numbers in decimal digits, and those that may be in hexadecimal digits.
ghost use Rattle.std.specs.Prelude.{◌≡◌, ◌≤◌, IfSome, nat_le, if◌then◌else◌, Some, None, IsTrue};
ghost use Rattle.std.specs.List.{list_all};
ghost use Rattle.std.specs.Char.{is_ascii_digit};
ghost use Rattle.tc_words.specs.Hexadecimal.{hex_of};
ghost use Rattle.tc_words.specs.Numbers.{is_misbegun, value_up_to, decimal_of, up_to, number_of};

use crate::hexadecimal::read_hex_digits;

// Whether there is no digit, or a needless 0 in front.
fn is_misbegun(word: &[u8]) -> bool
    ensures { result ≡ is_misbegun word.now }
{
    if word.is_empty() {
        return true;
    }
    word.len() > 1 && word[0] == b'0'
}

// The number that a word of digits alone spells. It stops at the first byte that is none, and at the first
// digit that takes it past the greatest, so the sum never overflows.
fn value_up_to(word: &[u8], most: u32) -> Option<u32>
    ensures { result ≡ value_up_to word.now most }
{
    let mut value = 0u64;
    for digit in word {
        if !digit.is_ascii_digit() {
            return None;
        }
        value = value * 10 + u64::from(*digit - b'0');
        if value > u64::from(most) {
            return None;
        }
    }
    Some(value as u32)
}

/// The number that a word spells in decimal digits, without a needless 0 in front, where it is at most
/// `most`.
///
/// `None` for any other word, the empty one too.
pub fn read_decimal(word: &[u8], most: u32) -> Option<u32>
    ensures value { result ≡ decimal_of word.now most }
    ensures at_most { IfSome result (λ number. number ≤ most) }
{
    if is_misbegun(word) {
        return None;
    }
    value_up_to(word, most)
}

fn hex_up_to(digits: &[u8], most: u32) -> Option<u32>
    ensures value { result ≡ up_to most (hex_of digits.now 8) }
    ensures at_most { IfSome result (λ number. number ≤ most) }
{
    let number = read_hex_digits(digits, 8)?;
    if number > u64::from(most) {
        return None;
    }
    Some(number as u32)
}

/// The number that a word spells in decimal digits, without a needless 0 in front, or in 1 to 8 hexadecimal
/// digits of either case behind `0x` or `0X`, where it is at most `most`.
///
/// `None` for any other word, the empty one too.
#[tactic(auto, unfolding(crate::specs::Numbers::number_of))]
pub fn read_number(word: &[u8], most: u32) -> Option<u32>
    ensures value { result ≡ number_of word.now most }
    ensures at_most { IfSome result (λ number. number ≤ most) }
{
    match word {
        [b'0', b'x' | b'X', digits @ ..] => hex_up_to(digits, most),
        _ => read_decimal(word, most),
    }
}
