//! The lines of a report between which nothing is told.
ghost use Rattle.std.specs.Prelude.{◌≡◌, ◌≤◌, ◌++◌, ◌∷◌, [], ℕ, true, false, List, length, take, drop};
ghost use Rattle.std.specs.Prelude.{Option, OnOk, IfOk, IfSome};
ghost use Rattle.std.specs.Option.{IfNone};
ghost use Rattle.tc_base.specs.Outside.{Appended, AppendsUpTo, PutCounts};
ghost use Rattle.walk_texts.specs.Texts.{joined};
ghost use Rattle.report_check.specs.Passed.{cut};
ghost use Rattle.report_check.specs.OfEvents.Cursors.{IsLineAt};
ghost use Rattle.report_trace.specs.Writing.{is_plain, ArePlain, IsWritten, IsBehind};

use report_check::reading::next_line;
use tc_base::{Put, Sink};

// Whether nothing is told before a line: it begins as `round`, `refused`, `edit` and `end` do.
fn is_plain(line: &[u8]) -> bool
    ensures { result ≡ is_plain line.now }
{
    matches!(line.first(), Some(b'r' | b'e'))
}

/// The first line of bytes that have one, and what follows it.
pub(crate) fn cut_first(bytes: &[u8]) -> (&[u8], &[u8])
    requires { (line : List ℕ) × (lines : List (List ℕ)) × (cut bytes.now ≡ line ∷ lines) }
    ensures { cut bytes.now ≡ result.0.now ∷ cut result.1.now }
{
    match next_line(bytes) {
        Some(parts) => parts,
        None => unreachable!(),
    }
}

// The line that begins at a place; none, at the end.
fn line_at(bytes: &[u8], at: usize) -> Option<&[u8]>
    requires { at ≤ length bytes.now }
    ensures none { IfNone result (cut (drop at bytes.now) ≡ []) }
    ensures some { IfSome result (λ line. IsLineAt bytes.now at line.now) }
{
    match next_line(&bytes[at..]) {
        Some((line, _)) => Some(line),
        None => None,
    }
}

// How many bytes the lines have before the first one that isn't plain.
fn plain_length(bytes: &[u8]) -> usize
    ensures within { result ≤ length bytes.now }
    ensures front { (plain : List (List ℕ)) (line : List ℕ) (lines : List (List ℕ)) → ArePlain plain
        → is_plain line ≡ false → cut bytes.now ≡ plain ++ (line ∷ lines)
        → (take result bytes.now ≡ joined plain) × (cut (drop result bytes.now) ≡ line ∷ lines) }
{
    let mut length = 0;
    while let Some(line) = line_at(bytes, length) {
        if !is_plain(line) {
            return length;
        }
        length += line.len();
    }
    length
}

/// Writes a piece, if there is anything in it.
pub(crate) fn put<O: Sink>(piece: &[u8], out: &mut O) -> Result<(), Put>
    ensures all { OnOk result (Appended (O.written out.old) (O.written out.new) piece.now) }
    ensures up_to { AppendsUpTo (O.written out.old) (O.written out.new) piece.now }
    ensures counts { PutCounts (O.faults out.old) (O.faults out.new) result }
{
    if piece.is_empty() {
        return Ok(());
    }
    out.write_all(piece)
}

/// Writes the lines of a report before the first that isn't plain. That one and what follows are left.
pub(crate) fn put_plain<'a, O: Sink>(left: &'a [u8], out: &mut O) -> Result<&'a [u8], Put>
    ensures written { IfOk result (λ behind. (first : Option (List ℕ)) (whole line : List ℕ)
        (lines : List (List ℕ)) (rest : List ℕ) → is_plain line ≡ false
        → IsBehind first (O.written out.old) whole left.now (line ∷ lines) rest
        → (cut behind.now ≡ line ∷ lines) × IsWritten first (O.written out.new) whole rest) }
    ensures up_to { (first : Option (List ℕ)) (whole line : List ℕ) (lines : List (List ℕ)) (rest : List ℕ)
        → is_plain line ≡ false → IsBehind first (O.written out.old) whole left.now (line ∷ lines) rest
        → AppendsUpTo first (O.written out.new) whole }
    ensures counts { PutCounts (O.faults out.old) (O.faults out.new) result }
{
    let length = plain_length(left);
    put(&left[..length], out)?;
    Ok(&left[length..])
}
