//! The line of a packet.
ghost use Rattle.std.specs.Prelude.{◌≡◌, ◌<◌, ◌^◌, ◌++◌, ◌∷◌, ℕ, List, [], drop, Some, IfOk, OnOk};
ghost use Rattle.filter_state.specs.Sound.{Each};
ghost use Rattle.report_laws.specs.OfLineCuts.Numbers.{numbers_text};
ghost use Rattle.report_check.specs.OfReading.Packets.{ShowsPoints};

use crate::reading::numbers::{cut_number, read_number, read_numbers};
use memchr::memrchr;
use tc_base::{NoMemory, Point};

const BEFORE_NUMBER: usize = "packet ".len();

const BEFORE_WORKER: usize = " worker ".len();

// What follows so many bytes; nothing, where there are fewer.
fn behind(text: &[u8], count: usize) -> &[u8]
    ensures { result.now ≡ drop count text.now }
{
    text.get(count..).unwrap_or(&[])
}

// The worker of a packet's line.
fn worker_of(line: &[u8]) -> Option<u32>
    ensures { (number worker : ℕ) (points : List ℕ) → ShowsPoints line.now number worker points
        → result ≡ Some worker }
{
    let (_, rest) = cut_number(behind(line, BEFORE_NUMBER));
    let (worker, _) = read_number(behind(rest, BEFORE_WORKER))?;
    Some(worker)
}

// What follows the last `s` of a line: the points of a packet's line, since ` points` is its last word.
fn points_of(line: &[u8]) -> &[u8]
    ensures { (front numbers : List ℕ) → line.now ≡ front ++ (115 ∷ (numbers_text numbers ++ (10 ∷ [])))
        → result.now ≡ numbers_text numbers ++ (10 ∷ []) }
{
    match memrchr(b's', line) {
        Some(place) => &line[place + 1..],
        None => line,
    }
}

/// The worker and the points that the line of a packet shows, if they are numbers of 32 bits.
///
/// That is all that is read of it: a worker and points, where a walk at them has this line, determine it. So
/// whoever reads makes that line and compares. Nothing is told of other lines, whose answer means nothing.
/// The points come in place of what was in the list. `NoMemory`: the list couldn't grow.
pub fn read_packet_line(line: &[u8], points: &mut Vec<Point>) -> Result<Option<u32>, NoMemory>
    ensures shown { IfOk result (λ worker. (number other : ℕ) (shown : List ℕ)
        → ShowsPoints line.now number other shown → (worker ≡ Some other) × (points.new.items ≡ shown)) }
    ensures small { OnOk result (Each (λ point. point < 2 ^ 32) points.new.items) }
{
    points.clear();
    let is_read = read_numbers(points_of(line), points)?;
    Ok(if is_read { worker_of(line) } else { None })
}
