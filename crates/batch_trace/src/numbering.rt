//! Lines that were told of a frame, told of another packet that has it.
ghost use Rattle.std.specs.Prelude.{◌≡◌, ◌++◌, ◌∷◌, [], ℕ, List, drop, OnOk};
ghost use Rattle.batch_trace.specs.Kept.{at_number, behind_head, AreEnds};

use std::alloc::AllocError;
use tc_words::cut_at;
use walk_texts::push_count;

// What the kept lines begin with: a packet's number is never 0.
const HEAD_KEPT: &str = "at 0";

/// Puts `at N` in place of what is there.
pub(crate) fn put_head(head: &mut Vec<u8>, number: u64) -> Result<(), AllocError>
    ensures { OnOk result (head.new.items ≡ at_number number) }
{
    head.clear();
    push_count(head, "at ", number)
}

// What follows `at 0`.
fn end_of(line: &[u8]) -> &[u8]
    ensures { result.now ≡ drop 4 line.now }
{
    line.get(HEAD_KEPT.len()..).unwrap_or(&[])
}

// Puts a head, the end of a line, and a line feed behind a text.
fn push_line(text: &mut Vec<u8>, head: &[u8], end: &[u8]) -> Result<(), AllocError>
    ensures { OnOk result (text.new.items ≡ text.old.items ++ ((head.now ++ end.now) ++ (10 ∷ []))) }
{
    text.extend_from_slice(head)?;
    text.extend_from_slice(end)?;
    text.push(b'\n')?;
    Ok(())
}

/// Puts lines that begin with `at 0` behind a text: they begin with that head there.
pub(crate) fn push_numbered(text: &mut Vec<u8>, lines: &[u8], head: &[u8]) -> Result<(), AllocError>
    ensures { (ends : List (List ℕ)) → AreEnds ends → lines.now ≡ behind_head (at_number 0) ends
        → OnOk result (text.new.items ≡ text.old.items ++ behind_head head.now ends) }
{
    let mut left = lines;
    while let Some((line, behind)) = cut_at(left, b'\n') {
        push_line(text, head, end_of(line))?;
        left = behind;
    }
    Ok(())
}
