//! Numbers in the range of their place.
ghost use Rattle.std.specs.Prelude.{◌≡◌, ◌≤◌, IfSome};
ghost use Rattle.line_words.specs.Forms.{number_between};

use tc_words::read_number;

/// The number that a word spells, in decimal digits or behind `0x` or `0X` in hexadecimal ones
/// (`tc_words::read_number`), where it is at least `least` and at most `most`.
///
/// `None` for any other word, the empty one too.
pub fn read_number_between(word: &[u8], least: u32, most: u32) -> Option<u32>
    ensures value { result ≡ number_between least most word.now }
    ensures within { IfSome result (λ n. (least ≤ n) × (n ≤ most)) }
{
    let number = read_number(word, most)?;
    if number < least {
        return None;
    }
    Some(number)
}
