//! The control that an event's line names.
ghost use Rattle.std.specs.Prelude.{◌≡◌};
ghost use Rattle.report_check.specs.OfEvents.Blanks.{begins_event, behind_blank, control_in, first_digit};

use memchr::memchr;

// What stands behind the first blank; nothing, where there is none.
fn behind_blank(text: &[u8]) -> &[u8]
    ensures { result.now ≡ behind_blank text.now }
{
    match memchr(b' ', text) {
        Some(place) => &text[place + 1..],
        None => &[],
    }
}

// What the digit at the front of a text stands for. Of any other text what is told means nothing.
fn first_digit(text: &[u8]) -> Option<u32>
    ensures { result ≡ first_digit text.now }
{
    if text.is_empty() {
        return None;
    }
    let byte = text[0];
    if byte < b'0' {
        return None;
    }
    Some(u32::from(byte - b'0'))
}

// Whether a line begins as an event's does.
fn begins_event(line: &[u8]) -> bool
    ensures { result ≡ begins_event line.now }
{
    line.starts_with(b"edit ") || line.starts_with(b"refused ")
}

/// The control that a line names which begins as an event's does: of an event's line it is the event's, where
/// that is one of 1 to 9.
pub fn control_of(line: &[u8]) -> Option<u32>
    ensures { result ≡ control_in line.now }
{
    if !begins_event(line) {
        return None;
    }
    let number = behind_blank(line);
    let word = behind_blank(number);
    first_digit(behind_blank(word))
}
