//! The lines of a change, of its packets and of their fates.
ghost use Rattle.std.specs.Prelude.{◌≡◌, ◌++◌, codes, OnOk};
ghost use Rattle.std.specs.List.{flat_map};
ghost use Rattle.walk_texts.specs.Texts.{counted, verdict_text, meta_text};
ghost use Rattle.change_lines.specs.Passed.{points_text};
ghost use Rattle.change_fates.specs.Views.{fate_seen};
ghost use Rattle.change_fates.specs.Texts.{change_line, kind_text, more_text, packet_line, when_text, fate_line};
ghost use Rattle.change_fates.specs.Texts.{fate_end, kinds_text, summary_line};

use crate::counts::KindCounts;
use crate::tags::push_tags;
use crate::views::FateView;
use fate_times::{Kind, When};
use frame_edit::Meta;
use line_texts::push_class;
use std::alloc::AllocError;
use tc_base::Point;
use walk_rules::Verdict;
use walk_texts::{push_count, push_text};

/// Puts the line that tells between which points a change lies.
///
/// `AllocError`: memory was refused.
#[tactic(auto, unfolding(crate::specs::Texts::change_line))]
pub(crate) fn push_change(out: &mut Vec<u8>, before: Point, after: Point) -> Result<(), AllocError>
    ensures { OnOk result (out.new.items ≡ out.old.items ++ change_line before after) }
{
    push_count(out, "change from ", u64::from(before))?;
    push_count(out, " to ", u64::from(after))?;
    push_text(out, "\n")
}

fn kind_text(kind: Kind) -> &'static str
    ensures { result.now ≡ kind_text kind }
{
    match kind {
        Kind::Steady => " steady ways ",
        Kind::Moved => " moved ways ",
        Kind::Between => " between ways ",
        Kind::Mixed => " mixed ways ",
        Kind::Open => " open ways ",
    }
}

fn more_text(more: bool) -> &'static str
    ensures { result.now ≡ more_text more }
{
    if more { " more\n" } else { "\n" }
}

/// Puts the line of a packet: its number in the capture, from 1, its kind, how many ways were looked at, and
/// whether it has more.
///
/// `AllocError`: memory was refused.
#[tactic(auto, unfolding(crate::specs::Texts::packet_line))]
pub(crate) fn push_packet(
    out: &mut Vec<u8>,
    number: u64,
    kind: Kind,
    ways: u32,
    more: bool,
) -> Result<(), AllocError>
    ensures { OnOk result (out.new.items ≡ out.old.items ++ packet_line number kind ways more) }
{
    push_count(out, "packet ", number)?;
    push_count(out, kind_text(kind), u64::from(ways))?;
    push_text(out, more_text(more))
}

fn when_text(when: When) -> &'static str
    ensures { result.now ≡ when_text when }
{
    match when {
        When::Before => " before",
        When::After => " after",
        When::Both => " both",
        When::Between => " between",
        When::Mixed => " mixed",
    }
}

fn verdict_text(verdict: Verdict) -> &'static str
    ensures { result.now ≡ verdict_text verdict }
{
    match verdict {
        Verdict::Pass => " pass length ",
        Verdict::Drop => " drop length ",
    }
}

// Puts the metadata, unless all of it is 0.
fn push_meta(out: &mut Vec<u8>, meta: Meta) -> Result<(), AllocError>
    ensures { OnOk result (out.new.items ≡ out.old.items ++ meta_text meta) }
{
    if meta.priority == 0 && meta.mark == 0 && meta.queue == 0 {
        return Ok(());
    }
    push_text(out, " priority ")?;
    push_class(out, meta.priority)?;
    push_count(out, " mark ", u64::from(meta.mark))?;
    push_count(out, " queue ", u64::from(meta.queue))
}

fn push_each_point(out: &mut Vec<u8>, points: &[Point]) -> Result<(), AllocError>
    ensures { OnOk result (out.new.items
        ≡ out.old.items ++ flat_map (λ point. counted (codes " ") point) points.now) }
{
    for point in points {
        push_count(out, " ", u64::from(*point))?;
    }
    Ok(())
}

#[tactic(auto, unfolding(change_lines::specs::Passed::points_text))]
fn push_points(out: &mut Vec<u8>, points: &[Point]) -> Result<(), AllocError>
    ensures { OnOk result (out.new.items ≡ out.old.items ++ points_text points.now) }
{
    push_text(out, " points")?;
    push_each_point(out, points)
}

// Puts how a fate ends: the verdict, the frame's length and, where it passes, its tags, and its metadata.
#[tactic(auto, unfolding(crate::specs::Texts::fate_end))]
fn push_end(out: &mut Vec<u8>, fate: FateView<'_>) -> Result<(), AllocError>
    ensures { OnOk result (out.new.items ≡ out.old.items ++ fate_end (fate_seen fate.entry)) }
{
    push_count(out, verdict_text(fate.verdict), fate.length as u64)?;
    push_tags(out, fate.bytes)?;
    push_meta(out, fate.meta)
}

/// Puts the line of a fate of the packet of that number.
///
/// `AllocError`: memory was refused.
#[tactic(auto, unfolding(crate::specs::Texts::fate_line))]
pub(crate) fn push_fate(
    out: &mut Vec<u8>,
    number: u64,
    when: When,
    fate: FateView<'_>,
) -> Result<(), AllocError>
    ensures { OnOk result (out.new.items ≡ out.old.items ++ fate_line number when (fate_seen fate.entry)) }
{
    push_count(out, "fate ", number)?;
    push_text(out, when_text(when))?;
    push_end(out, fate)?;
    push_points(out, fate.points)?;
    push_text(out, "\n")
}

// Puts how many packets are of each kind.
#[tactic(auto, unfolding(crate::specs::Texts::kinds_text))]
fn push_kinds(out: &mut Vec<u8>, counts: KindCounts) -> Result<(), AllocError>
    ensures { OnOk result (out.new.items ≡ out.old.items ++ kinds_text counts) }
{
    push_count(out, " steady ", u64::from(counts.steady))?;
    push_count(out, " moved ", u64::from(counts.moved))?;
    push_count(out, " between ", u64::from(counts.between))?;
    push_count(out, " mixed ", u64::from(counts.mixed))?;
    push_count(out, " open ", u64::from(counts.left_open))
}

/// Puts the line that tells how many packets there are, and how many of each kind.
///
/// `AllocError`: memory was refused.
#[tactic(auto, unfolding(crate::specs::Texts::summary_line))]
pub(crate) fn push_summary(
    out: &mut Vec<u8>,
    packets: u64,
    counts: KindCounts,
) -> Result<(), AllocError>
    ensures { OnOk result (out.new.items ≡ out.old.items ++ summary_line packets counts) }
{
    push_count(out, "foreseen packets ", packets)?;
    push_kinds(out, counts)?;
    push_text(out, "\n")
}
