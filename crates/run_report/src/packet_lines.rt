//! The lines of a round's packets.
ghost use Rattle.std.specs.Prelude.{◌≡◌, ◌≤◌, ◌++◌, codes, OnOk, IsErrOf};
ghost use Rattle.std.specs.List.{flat_map};
ghost use Rattle.tc_base.specs.Outside.{AppendsUpTo, Rose};
ghost use Rattle.walk_texts.specs.Texts.{joined, counted};
ghost use Rattle.run_report.specs.Kept.{outcome_seen};
ghost use Rattle.run_report.specs.PacketTexts.{packet_name, points_text, shown_packet, packet_lines};
ghost use Rattle.run_report.specs.PacketTails.{packet_tail};
ghost use Rattle.run_report.specs.Pages.{IsPaged};

use crate::line_head::LineHead;
use crate::outcomes::{OutcomeView, Outcomes};
use crate::packet_tails::Tails;
use crate::page::turn;
use frame_edit::Meta;
use std::alloc::{AllocError, Global};
use tc_base::{Point, Put, Sink};
use walk_rules::Verdict;
use walk_texts::{push_count, push_end, push_text};

#[tactic(auto, unfolding(crate::specs::PacketTexts::packet_name))]
fn push_packet_name(out: &mut Vec<u8>, number: u64, worker: u32) -> Result<(), AllocError>
    ensures { OnOk result (out.new.items ≡ out.old.items ++ packet_name number worker) }
{
    push_count(out, "packet ", number)?;
    push_count(out, " worker ", u64::from(worker))
}

fn push_each_point(out: &mut Vec<u8>, points: &[Point]) -> Result<(), AllocError>
    ensures { OnOk result (out.new.items
        ≡ out.old.items ++ flat_map (λ point. counted (codes " ") point) points.now) }
{
    for point in points {
        push_count(out, " ", u64::from(*point))?;
    }
    Ok(())
}

#[tactic(auto, unfolding(crate::specs::PacketTexts::points_text))]
fn push_points(out: &mut Vec<u8>, points: &[Point]) -> Result<(), AllocError>
    ensures { OnOk result (out.new.items ≡ out.old.items ++ points_text points.now) }
{
    push_text(out, " points")?;
    push_each_point(out, points)
}

/// Puts the line of a packet by what it shows: its number in the capture, from 1, the worker that walked it,
/// its verdict, its frame's length in bytes and its metadata as the walk left them, and the point of each
/// visit in order.
///
/// `AllocError`: memory was refused.
pub fn push_packet_line(
    out: &mut Vec<u8>,
    number: u64,
    worker: u32,
    verdict: Verdict,
    length: u64,
    meta: Meta,
    points: &[Point],
) -> Result<(), AllocError>
    ensures { OnOk result (out.new.items
        ≡ out.old.items ++ shown_packet number worker verdict length meta points.now) }
{
    push_packet_name(out, number, worker)?;
    push_end(out, verdict, length, meta)?;
    push_points(out, points)?;
    push_text(out, "\n")
}

// Puts what the line of a packet tells behind its number.
pub(crate) fn push_tail(out: &mut Vec<u8>, outcome: &OutcomeView<'_>) -> Result<(), AllocError>
    ensures { OnOk result (out.new.items ≡ out.old.items ++ packet_tail (outcome_seen outcome.now)) }
{
    push_count(out, " worker ", u64::from(outcome.worker))?;
    push_end(
        out,
        outcome.verdict,
        outcome.bytes.len() as u64,
        outcome.meta,
    )?;
    push_points(out, outcome.points)?;
    push_text(out, "\n")
}

/// Writes a line for each packet of a round.
pub(crate) fn write_packets<O: Sink>(
    alloc: Global,
    page: &mut Vec<u8>,
    out: &mut O,
    outcomes: &Outcomes,
) -> Result<(), Put>
    ensures text { OnOk result (IsPaged (O.written out.old) (O.written out.new)
        (page.old.items ++ joined (packet_lines outcomes.now)) page.new.items) }
    ensures up_to { AppendsUpTo (O.written out.old) (O.written out.new)
        (page.old.items ++ joined (packet_lines outcomes.now)) }
    ensures later { O.faults out.old ≤ O.faults out.new }
    ensures cause { IsErrOf result Put.Failed → Rose (O.faults out.old) (O.faults out.new) }
{
    let mut head = LineHead::new(alloc)?;
    let mut tails = Tails::new(alloc);
    for place in 0..outcomes.len() {
        turn(page, out)?;
        head.turn_to_next()?;
        page.extend_from_slice(&head.text)?;
        tails.push(page, outcomes.at(place))?;
    }
    Ok(())
}
