//! A number at the front of a text, and numbers behind blanks.
ghost use Rattle.std.specs.Prelude.{◌≡◌, ◌<◌, ◌≤◌, ◌^◌, ◌++◌, ◌∷◌, ℕ, List, [], position, true, length, Some};
ghost use Rattle.std.specs.Prelude.{IfOk, OnOk, IfSome, option_map};
ghost use Rattle.std.specs.Borrow.{Bor};
ghost use Rattle.std.specs.Option.{IfNone};
ghost use Rattle.std.specs.Fmt.{decimal};
ghost use Rattle.std.specs.List.{position_or_len};
ghost use Rattle.filter_state.specs.Sound.{Each};
ghost use Rattle.report_laws.specs.OfLineCuts.Numbers.{Low, numbers_text};
ghost use Rattle.report_check.specs.OfReading.Packets.{is_low};

use tc_base::{NoMemory, Point};
use tc_words::read_decimal;

// Whether a byte stands below the digits, as a blank and the end of a line do.
fn is_low(byte: u8) -> bool
    ensures { result ≡ is_low byte }
{
    byte < b'0'
}

// The place of the first byte that is below the digits.
fn number_end(text: &[u8]) -> Option<usize>
    ensures { result ≡ position is_low text.now }
{
    text.iter().position(|byte| is_low(*byte))
}

// How many bytes stand before the first one that is below the digits.
fn number_length(text: &[u8]) -> usize
    ensures value { result ≡ position_or_len is_low text.now }
    ensures within { result ≤ length text.now }
{
    number_end(text).unwrap_or(text.len())
}

/// A number at the front, whatever its size, and what follows it.
pub(crate) fn cut_number(text: &[u8]) -> (&[u8], &[u8])
    ensures cut { (number : ℕ) (rest : List ℕ) → Low rest → text.now ≡ decimal number ++ rest
        → (result.0.now ≡ decimal number) × (result.1.now ≡ rest) }
    ensures shorter { length result.1.now ≤ length text.now }
{
    let length = number_length(text);
    (&text[..length], &text[length..])
}

/// The number at the front, and what follows it.
pub(crate) fn read_number(text: &[u8]) -> Option<(u32, &[u8])>
    ensures read { (number : ℕ) (rest : List ℕ) → number < 2 ^ 32 → Low rest
        → text.now ≡ decimal number ++ rest
        → option_map {U = ℕ × List ℕ} (λ (parts : ℕ × Bor (List ℕ)). (parts.0, parts.1.now)) result
        ≡ Some (number, rest) }
    ensures shorter { IfSome result (λ parts. length parts.1.now ≤ length text.now) }
    ensures few { IfSome result (λ parts. parts.0 < 2 ^ 32) }
{
    let (digits, rest) = cut_number(text);
    Some((read_decimal(digits, u32::MAX)?, rest))
}

// What follows a blank at the front.
fn after_blank(text: &[u8]) -> Option<&[u8]>
    ensures some { IfSome result (λ rest. text.now ≡ 32 ∷ rest.now) }
    ensures none { IfNone result ((rest : List ℕ) → text.now ≡ 32 ∷ rest → ⊥) }
{
    match text {
        [b' ', rest @ ..] => Some(rest),
        _ => None,
    }
}

/// Numbers that each stand behind a blank, up to the end of the line. Whether there was nothing else.
pub(crate) fn read_numbers(text: &[u8], into: &mut Vec<Point>) -> Result<bool, NoMemory>
    requires { into.old.items ≡ [] }
    ensures small { OnOk result (Each (λ number. number < 2 ^ 32) into.new.items) }
    ensures read { IfOk result (λ read. (numbers : List ℕ) → Each (λ number. number < 2 ^ 32) numbers
        → text.now ≡ numbers_text numbers ++ (10 ∷ []) → (read ≡ true) × (into.new.items ≡ numbers)) }
{
    let mut left = text;
    while let Some(number) = after_blank(left) {
        let Some((number, after)) = read_number(number) else {
            return Ok(false);
        };
        into.push(number)?;
        left = after;
    }
    Ok(left.len() == 1)
}
