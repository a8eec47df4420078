//! The first line of bytes.
ghost use Rattle.std.specs.Prelude.{◌≡◌, ◌∷◌, [], IfSome};
ghost use Rattle.std.specs.Option.{IfNone};
ghost use Rattle.report_laws.specs.OfLineCuts.Cuts.{cut};
ghost use Rattle.report_check.specs.OfReading.Ends.{IsEnd};

use memchr::memchr;

/// The first line of bytes, with its 0x0A where it has one, and what follows it. Bytes without a line are
/// none.
pub fn next_line(bytes: &[u8]) -> Option<(&[u8], &[u8])>
    ensures none { IfNone result (bytes.now ≡ []) }
    ensures some { IfSome result (λ parts. cut bytes.now ≡ parts.0.now ∷ cut parts.1.now) }
{
    if bytes.is_empty() {
        return None;
    }
    let end = line_end(bytes);
    Some((&bytes[..end], &bytes[end..]))
}

// How many bytes the first line has, of bytes that aren't empty.
fn line_end(bytes: &[u8]) -> usize
    ensures { IsEnd bytes.now result }
{
    match memchr(b'\n', bytes) {
        Some(place) => place + 1,
        None => bytes.len(),
    }
}
