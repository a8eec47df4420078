//! The lines of a file.
ghost use Rattle.std.specs.Prelude.{◌≡◌, ◌∷◌, ◌<◌, ◌≤◌, [], length, drop, map, IfOk, IfSome, IfNone};
ghost use Rattle.std.specs.Str.Lines.{strip_carriage_return};
ghost use Rattle.tc_words.specs.Lines.{lines_of};

use crate::cuts::cut_at;
use std::alloc::{AllocError, Global};
use tc_base::NoMemory;

/// A line of a file, and the place in the file at which what is behind it begins.
#[derive(Clone, Copy, Debug)]
pub struct FileLine<'a> {
    pub text: &'a [u8],
    pub next: usize,
}

fn without_return(line: &[u8]) -> &[u8]
    ensures { result.now ≡ strip_carriage_return line.now }
{
    match line {
        [front @ .., b'\r'] => front,
        _ => line,
    }
}

fn bytes_from(bytes: &[u8], at: usize) -> &[u8]
    requires { at ≤ length bytes.now }
    ensures { result.now ≡ drop at bytes.now }
{
    &bytes[at..]
}

/// The first line of what stands from a place on. `None` exactly where nothing stands there.
///
/// So the lines of a file come one by one, each from the place behind the one before, and none has to be
/// kept.
pub fn line_from(bytes: &[u8], at: usize) -> Option<FileLine<'_>>
    requires { at ≤ length bytes.now }
    ensures some { IfSome result (λ line. lines_of (drop at bytes.now)
        ≡ line.text.now ∷ lines_of (drop line.next bytes.now)) }
    ensures onward { IfSome result (λ line. (at < line.next) × (line.next ≤ length bytes.now)) }
    ensures none { IfNone result ((at ≡ length bytes.now) × (lines_of (drop at bytes.now) ≡ [])) }
{
    let rest = bytes_from(bytes, at);
    match cut_at(rest, b'\n') {
        Some((line, _)) => Some(FileLine {
            text: without_return(line),
            next: at + line.len() + 1,
        }),
        None => {
            if rest.is_empty() {
                None
            } else {
                Some(FileLine {
                    text: without_return(rest),
                    next: bytes.len(),
                })
            }
        }
    }
}

fn cut_lines(alloc: Global, bytes: &[u8]) -> Result<Vec<&[u8]>, AllocError>
    ensures { IfOk result (λ v. map (λ line. line.now) v.items ≡ lines_of bytes.now) }
{
    let mut lines = Vec::new(alloc);
    let mut at = 0;
    while let Some(line) = line_from(bytes, at) {
        lines.push(line.text)?;
        at = line.next;
    }
    Ok(lines)
}

/// The lines of a file, in order: what stands between line feeds, each without the one carriage return at its
/// end.
///
/// A last line needs no line feed, and nothing behind the last line feed is no line. Blank lines count.
pub fn lines(alloc: Global, bytes: &[u8]) -> Result<Vec<&[u8]>, NoMemory>
    ensures { IfOk result (λ v. map (λ line. line.now) v.items ≡ lines_of bytes.now) }
{
    Ok(cut_lines(alloc, bytes)?)
}
