//! The words of a line, and names among them.
ghost use Rattle.std.specs.Prelude.{◌≡◌, ◌==◌, map, not, IfOk};
ghost use Rattle.std.specs.List.{list_all};
ghost use Rattle.tc_words.specs.Lines.{words_of};
ghost use Rattle.tc_words.specs.Texts.{words_are};
ghost use Rattle.job_lines.specs.Jobs.{is_name_byte};
ghost use Rattle.job_lines.specs.Steps.{is_name};

use std::alloc::{AllocError, Global};
use tc_words::{first_word, is_text};

// The words of a line, lent from it.
pub(crate) fn words(alloc: Global, line: &[u8]) -> Result<Vec<&[u8]>, AllocError>
    ensures { IfOk result (λ v. map (λ word. word.now) v.items ≡ words_of line.now) }
{
    let mut words = Vec::new(alloc);
    let mut rest = line;
    while let Some((word, more)) = first_word(rest) {
        words.push(word)?;
        rest = more;
    }
    Ok(words)
}

// Whether the words are these texts, one by one.
pub(crate) fn are_texts(words: &[&[u8]], texts: &[&str]) -> bool
    ensures { result ≡ words_are (map (λ word. word.now) words.now) (map (λ text. text.now) texts.now) }
{
    match words {
        [] => texts.is_empty(),
        [word, words @ ..] => match texts {
            [] => false,
            [text, texts @ ..] => is_text(word, text) && are_texts(words, texts),
        },
    }
}

// A `#` begins a comment, so no word of a line has one.
fn is_name_byte(byte: u8) -> bool
    ensures { result ≡ is_name_byte byte }
{
    (byte >= 0x21 && byte <= 0x7E) && byte != b'#'
}

fn has_name_bytes(word: &[u8]) -> bool
    ensures { result ≡ list_all is_name_byte word.now }
{
    word.iter().all(|byte| is_name_byte(*byte))
}

// Whether a word may be a file's name: whether it has printed bytes of ASCII alone.
pub(crate) fn is_name(word: &[u8]) -> bool
    ensures { result ≡ is_name word.now }
{
    !word.is_empty() && has_name_bytes(word)
}
