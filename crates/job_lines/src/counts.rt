//! Lines that count workers or controls.
ghost use Rattle.std.specs.Prelude.{◌≡◌, map};
ghost use Rattle.job_lines.specs.Steps.{above_zero, count_of};

use tc_words::{is_text, read_decimal};

fn above_zero(number: Option<u32>) -> Option<u32>
    ensures { result ≡ above_zero number }
{
    match number {
        Some(0) | None => None,
        Some(number) => Some(number),
    }
}

// The count behind a keyword, from 1 to `most`.
pub(crate) fn read_count(words: &[&[u8]], keyword: &str, most: u32) -> Option<u32>
    ensures { result ≡ count_of keyword.now most (map (λ word. word.now) words.now) }
{
    match words {
        [word, number] if is_text(word, keyword) => above_zero(read_decimal(number, most)),
        _ => None,
    }
}
