//! How a packet ended, in 4 bytes.
ghost use Rattle.frame_edit.specs.declared.limits.TheConstants.{FRAME_MAX};
ghost use Rattle.std.specs.Prelude.{◌≡◌, ◌+◌, ◌<◌, ◌≤◌, ◌^◌, nat_le, if◌then◌else◌};
ghost use Rattle.walk_rules.specs.declared.verdict.Verdict.TheVariants as verdicts;
ghost use Rattle.capture_walk.specs.EndWords.{without, is_noted, end_in};

use crate::ends::PacketEnd;
use frame_edit::Meta;
use walk_rules::Verdict;

// What is added to a length where the packet was dropped.
pub const DROPPED: u32 = 0x8000_0000;

// What is added to a length where metadata is noted beside. A frame is far shorter.
pub const NOTED: u32 = 0x4000_0000;

/// The word of an end, whose metadata is noted beside or not.
#[inline]
pub fn word_of(end: PacketEnd, noted: bool) -> u32
    requires { end.length ≤ FRAME_MAX }
    ensures end { end_in result end.meta ≡ end }
    ensures noted { is_noted result ≡ noted }
{
    let length = marked(end.length, NOTED, noted);
    marked(length, DROPPED, is_dropped(end.verdict))
}

/// Whether metadata is noted beside this word.
#[inline]
pub fn has_note(word: u32) -> bool
    ensures { result ≡ is_noted word }
{
    unmarked(word, DROPPED) >= NOTED
}

/// How a packet with this word and metadata ended.
#[inline]
pub fn end_of(word: u32, meta: Meta) -> PacketEnd
    ensures { result ≡ end_in word meta }
{
    let verdict = if word >= DROPPED {
        Verdict::Drop
    } else {
        Verdict::Pass
    };
    PacketEnd {
        verdict,
        length: unmarked(unmarked(word, DROPPED), NOTED),
        meta,
    }
}

fn is_dropped(verdict: Verdict) -> bool
    ensures { (if result then verdicts.Drop else verdicts.Pass) ≡ verdict }
{
    match verdict {
        Verdict::Pass => false,
        Verdict::Drop => true,
    }
}

// The number, with the mark added to it or not.
#[inline]
fn marked(number: u32, mark: u32, is_marked: bool) -> u32
    requires below { number < mark }
    requires fits { number + mark < 2 ^ 32 }
    ensures number { without mark result ≡ number }
    ensures mark { nat_le mark result ≡ is_marked }
    ensures most { result ≤ number + mark }
{
    if is_marked { number + mark } else { number }
}

// A number without the mark, if it has it.
#[inline]
fn unmarked(word: u32, mark: u32) -> u32
    ensures { result ≡ without mark word }
{
    if word >= mark { word - mark } else { word }
}
