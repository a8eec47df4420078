//! Words that several lines have.
ghost use Rattle.std.specs.Prelude.{◌≡◌, [], ◌∷◌, ◌++◌, decimal, fold, OnOk};
ghost use Rattle.tc_print.specs.EditWords.{hook_text};
ghost use Rattle.trace_lines.specs.Lines.{by_words, maker_words, origin_words, point_words};
ghost use Rattle.tc_print.specs.Texts.{spaced, onto};

use crate::told::Told;
use edit_lines::{Line, Origin};
use line_texts::push_number;
use std::alloc::AllocError;
use tc_base::{Hook, Point};
use tc_print::push_handle_word;

// A trace has many words, and nearly each is a constant: inlined, such a word is written by a move or two.
#[inline(always)]
fn push_space(line: &mut Vec<u8>) -> Result<(), AllocError>
    ensures { OnOk result (line.new.items ≡ spaced line.old.items) }
{
    if line.len() == 0 {
        return Ok(());
    }
    line.push(b' ')?;
    Ok(())
}

/// Puts one word behind a line, with a space before it unless the line is empty.
#[inline(always)]
pub(crate) fn push_word(line: &mut Vec<u8>, word: &str) -> Result<(), AllocError>
    ensures { OnOk result (line.new.items ≡ onto line.old.items word.now) }
{
    push_space(line)?;
    line.extend_from_slice(word.as_bytes())
}

// Puts a number in decimal digits behind a line. Most have one digit.
#[inline(always)]
#[tactic(auto, using(crate::proofs::Grown::one_digit))]
fn push_digits(line: &mut Vec<u8>, number: u64) -> Result<(), AllocError>
    ensures { OnOk result (line.new.items ≡ line.old.items ++ decimal number) }
{
    if number >= 10 {
        return push_number(line, number);
    }
    line.push(b'0' + number as u8)?;
    Ok(())
}

/// Puts a name and its number behind a line, each with a space before it unless the line is empty.
#[inline(always)]
pub(crate) fn push_named(line: &mut Vec<u8>, name: &str, number: u64) -> Result<(), AllocError>
    ensures { OnOk result (line.new.items ≡ fold onto line.old.items (name.now ∷ decimal number ∷ [])) }
{
    push_word(line, name)?;
    push_space(line)?;
    push_digits(line, number)
}

/// Puts where an edit was read behind a line: `edit K control C line L`.
///
/// `AllocError`: memory was refused.
pub fn push_by(line: &mut Vec<u8>, by: Line) -> Result<(), AllocError>
    ensures { OnOk result (line.new.items ≡ fold onto line.old.items (by_words by)) }
{
    push_named(line, "edit", u64::from(by.edit))?;
    push_named(line, "control", u64::from(by.control))?;
    push_named(line, "line", by.line)
}

// The name of a hook.
fn hook_name(hook: Hook) -> &'static str
    ensures { result.now ≡ hook_text hook }
{
    match hook {
        Hook::Ingress => "ingress",
        Hook::Egress => "egress",
    }
}

/// Puts the name of a hook behind a line (tc-clsact(8)), with a space before it unless the line is empty.
///
/// `AllocError`: memory was refused.
pub fn push_hook_word(line: &mut Vec<u8>, hook: Hook) -> Result<(), AllocError>
    ensures { OnOk result (line.new.items ≡ onto line.old.items (hook_text hook)) }
{
    push_word(line, hook_name(hook))
}

/// By which line an action was brought, where that is known.
pub(crate) fn push_maker(line: &mut Vec<u8>, maker: Option<Line>) -> Result<(), AllocError>
    ensures { OnOk result (line.new.items ≡ fold onto line.old.items (maker_words maker)) }
{
    match maker {
        Some(by) => push_by(line, by),
        None => Ok(()),
    }
}

/// A filter's handle, and by which line the filter was brought, where that is known.
pub(crate) fn push_origin(line: &mut Vec<u8>, origin: Option<Origin>) -> Result<(), AllocError>
    ensures { OnOk result (line.new.items ≡ fold onto line.old.items (origin_words origin)) }
{
    match origin {
        Some(origin) => {
            push_word(line, "handle")?;
            push_handle_word(line, origin.handle)?;
            push_by(line, origin.by)
        }
        None => Ok(()),
    }
}

/// The point of a visit, where points are told.
pub(crate) fn push_point(line: &mut Vec<u8>, told: Told, point: Point) -> Result<(), AllocError>
    ensures { OnOk result (line.new.items ≡ fold onto line.old.items (point_words told.points point)) }
{
    if told.points {
        push_named(line, "point", u64::from(point))
    } else {
        Ok(())
    }
}
