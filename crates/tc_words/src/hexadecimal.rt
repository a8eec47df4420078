//! Numbers in hexadecimal digits.
ghost use Rattle.std.specs.Prelude.{◌≡◌, ◌≤◌, ◌<◌, ◌^◌, IfSome, IsTrue, length};
ghost use Rattle.std.specs.List.{list_all};
ghost use Rattle.std.specs.Char.{is_ascii_hexdigit, digit_value};
ghost use Rattle.tc_words.specs.Hexadecimal.{hex_value, is_hex, hex_of, without_hex_mark, marked_hex_of};

fn digit_value(digit: u8) -> u8
    requires { IsTrue (is_ascii_hexdigit digit) }
    ensures value { result ≡ digit_value digit }
    ensures below { result < 16 }
{
    match digit {
        b'0'..=b'9' => digit - b'0',
        b'a'..=b'f' => digit - b'a' + 10,
        _ => digit - b'A' + 10,
    }
}

// The number that digits spell. No more than 16 fit into it.
fn hex_value(digits: &[u8]) -> u64
    requires digits { IsTrue (list_all is_ascii_hexdigit digits.now) }
    requires short { length digits.now ≤ 16 }
    ensures value { result ≡ hex_value digits.now }
    ensures below { result < 16 ^ length digits.now }
{
    let mut value = 0;
    for digit in digits {
        value = value * 16 + u64::from(digit_value(*digit));
    }
    value
}

fn are_hex_digits(text: &[u8]) -> bool
    ensures { result ≡ list_all is_ascii_hexdigit text.now }
{
    text.iter().all(|b| b.is_ascii_hexdigit())
}

fn has_hex_form(text: &[u8], most: u32) -> bool
    ensures { result ≡ is_hex text.now most }
{
    if text.is_empty() || text.len() > most as usize {
        return false;
    }
    are_hex_digits(text)
}

/// The number that a text of 1 to `most` hexadecimal digits of either case spells, with no `0x` before them.
/// So `17` is 23. At most 16 digits may be asked for.
///
/// `None` for any other text, the empty one too.
#[tactic(auto, unfolding(crate::specs::Hexadecimal::hex_of))]
pub fn read_hex_digits(text: &[u8], most: u32) -> Option<u64>
    requires { most ≤ 16 }
    ensures value { result ≡ hex_of text.now most }
    ensures below { IfSome result (λ number. number < 16 ^ most) }
{
    if !has_hex_form(text, most) {
        return None;
    }
    Some(hex_value(text))
}

fn without_hex_mark(word: &[u8]) -> &[u8]
    ensures { result.now ≡ without_hex_mark word.now }
{
    match word {
        [b'0', b'x', digits @ ..] => digits,
        _ => word,
    }
}

/// The number that a word spells in hexadecimal digits of either case, 1 to `digits` of them, with or without
/// `0x` before them. So `17` is 23. At most 16 digits may be asked for.
///
/// `None` for any other word, the empty one and one with `0X` too.
#[tactic(auto, unfolding(crate::specs::Hexadecimal::marked_hex_of))]
pub fn read_hex(word: &[u8], digits: u32) -> Option<u64>
    requires { digits ≤ 16 }
    ensures value { result ≡ marked_hex_of word.now digits }
    ensures below { IfSome result (λ number. number < 16 ^ digits) }
{
    read_hex_digits(without_hex_mark(word), digits)
}
