//! Values under a mask.
ghost use Rattle.std.specs.Prelude.{◌≡◌, ◌≤◌, ◌<◌, IfSome};
ghost use Rattle.line_words.specs.Forms.{under_mask, masked_hex_of, masked_octet_of};
ghost use Rattle.tc_words.specs.Numbers.{number_of};

use tc_words::{cut_at, read_hex, read_number};

fn under_mask(value: Option<u64>, mask: Option<u64>) -> Option<(u64, u64)>
    ensures { result ≡ under_mask value mask }
{
    let value = value?;
    let mask = mask?;
    Some((value & mask, mask))
}

/// The value AND the mask, and then the mask, of a value that stands alone or has `/` and a mask behind it
/// (tc-flower(8), `ip_tos` and `tcp_flags`). Value and mask are 1 to `digits` hexadecimal digits of either
/// case, each with or without `0x` before them. A value alone has all bits of `digits` digits in its mask: 8
/// bits in 2 digits, 12 in 3. At most 15 digits may be asked for.
///
/// `None` for any other word.
pub fn read_masked_hex(word: &[u8], digits: u32) -> Option<(u64, u64)>
    requires { digits ≤ 15 }
    ensures { result ≡ masked_hex_of word.now digits }
{
    match cut_at(word, b'/') {
        Some((value, mask)) => under_mask(read_hex(value, digits), read_hex(mask, digits)),
        None => under_mask(read_hex(word, digits), Some(16u64.pow(digits) - 1)),
    }
}

fn read_octet(text: &[u8]) -> Option<u64>
    ensures { result ≡ number_of text.now 255 }
{
    let number = read_number(text, 255)?;
    Some(u64::from(number))
}

/// The value AND the mask, and then the mask, of a number of 8 bits that stands alone or has `/` and a mask
/// behind it (tc-flower(8), `ip_ttl`). Value and mask are numbers up to 255, in decimal digits or behind `0x`
/// or `0X` in hexadecimal ones. A value alone has all 8 bits in its mask.
///
/// `None` for any other word.
pub fn read_masked_octet(word: &[u8]) -> Option<(u64, u64)>
    ensures { result ≡ masked_octet_of word.now }
{
    match cut_at(word, b'/') {
        Some((value, mask)) => under_mask(read_octet(value), read_octet(mask)),
        None => under_mask(read_octet(word), Some(255)),
    }
}
