//! What is told of one packet of a report.
ghost use Rattle.frame_edit.specs.declared.limits.TheConstants.{FRAME_MAX};
ghost use Rattle.std.specs.Prelude.{◌≡◌, ◌≤◌, ◌<◌, ◌+◌, ◌-◌, ◌^◌, ◌++◌, ℕ, length, get_or, slice_get};
ghost use Rattle.std.specs.Prelude.{Some, OnOk, IfOk, IsErrOf};
ghost use Rattle.filter_state.specs.Sound.{Each};
ghost use Rattle.filter_state.specs.Journals.{state_at};
ghost use Rattle.filter_lists.specs.Spells.{Spells};
ghost use Rattle.tc_base.specs.Outside.{AppendsUpTo, Rose};
ghost use Rattle.walk_rules.specs.declared.limits.TheConstants.{VISITS_MAX};
ghost use Rattle.run_report.specs.declared.outcomes.Outcome.{Outcome};
ghost use Rattle.run_report.specs.PacketTexts.{packet_line};
ghost use Rattle.batch_trace.specs.Passed.{edits_of};
ghost use Rattle.report_check.specs.OfReading.Packets.{IsSmall};
ghost use Rattle.trace_lines.specs.Lines.{decided_in};
ghost use Rattle.walk_trace.specs.Tallies.{count_at, times_in};
ghost use Rattle.batch_trace.specs.Passed.{names_of};
ghost use Rattle.report_check.specs.declared.walker.Walker.{Walker as AWalker};
ghost use Rattle.report_check.specs.Walks.{StandsIn};
ghost use Rattle.report_trace.specs.Traced.{steps_at, met_at};
ghost use Rattle.report_trace.specs.Writing.{IsBehind, NextPacket, IsNextPacket};

use crate::known::Known;
use crate::lines::{cut_first, put_plain};
use filter_lists::Lists;
use report_check::Walker;
use report_check::reading::read_packet_line;
use std::alloc::Global;
use tc_base::{Hook, NoMemory, Point, Put, Sink};
use trace_lines::{Page, Told};
use walk_steps::Walk;
use walk_trace::{Points, Tally, tell_walk};

/// Room for the walk of a packet and for what is told of it, kept from packet to packet.
#[derive(Drop)]
pub(crate) struct Room {
    walk: Walk,
    page: Page,
    points: Vec<Point>,
    // the edits whose filters decided
    decided: Vec<Point>,
}

impl Room {
    /// Room for a walk. That for its points, its lines and what decided is taken as they come.
    pub(crate) fn new(alloc: Global) -> Result<Room, NoMemory> {
        Ok(Room {
            walk: Walk::with_room(alloc)?,
            page: Page::new(alloc),
            points: Vec::new(alloc),
            decided: Vec::new(alloc),
        })
    }
}

// Makes the room's page what a packet of at most 262,144 bytes met at the room's points, with its own line
// behind. The lists stand at the first of these points. What decided is counted.
fn tell_packet(
    room: &mut Room,
    tally: &mut Tally,
    known: &Known<'_>,
    lists: &Lists,
    number: u64,
    hook: Hook,
    bytes: &[u8],
    line: &[u8],
) -> Result<(), NoMemory>
    requires short { length bytes.now ≤ FRAME_MAX }
    requires room { (edit : ℕ) → count_at tally.old edit + VISITS_MAX < 2 ^ 64 }
    requires lists { Spells lists.now (state_at (get_or room.old.points.items 0 0) (edits_of known.now)) }
    ensures page { OnOk result (room.new.page
        ≡ met_at known.now number hook bytes.now room.old.points.items ++ line.now) }
    ensures tally { OnOk result ((edit : ℕ) → count_at tally.new edit ≡ count_at tally.old edit + times_in
        (decided_in (names_of known.now) (steps_at known.now hook bytes.now room.old.points.items)) edit) }
    ensures few { OnOk result ((edit : ℕ) → count_at tally.new edit ≤ count_at tally.old edit + VISITS_MAX) }
{
    // For the proof: what lists always keep.
    let _actions = lists.actions();
    let answers = known.answers(lists);
    let names = known.names();
    let told = Told {
        packet: number,
        points: true,
    };
    let Room {
        walk,
        page,
        points,
        decided,
    } = room;
    let points = Points::Each(points.as_slice());
    page.clear();
    decided.clear();
    tell_walk(
        walk, &answers, &names, hook, bytes, points, told, page, decided,
    )?;
    tally.note(decided)?;
    page.push_text(line)
}

// The first of a walk's points; 0, where there is none.
fn first_of(points: &[Point]) -> Point
    ensures { result ≡ get_or points.now 0 0 }
{
    points.first().copied().unwrap_or(0)
}

// The worker of a packet's line, and its points in place of what was in the list.
fn read_packet(line: &[u8], points: &mut Vec<Point>) -> Result<u32, NoMemory>
    requires { (number : ℕ) × (outcome : Outcome) × IsSmall outcome
        × (line.now ≡ packet_line number outcome) }
    ensures { IfOk result (λ worker. (number : ℕ) (outcome : Outcome) → IsSmall outcome
        → line.now ≡ packet_line number outcome
        → (worker ≡ outcome.worker) × (points.new.items ≡ outcome.points)) }
{
    match read_packet_line(line, points)? {
        Some(worker) => Ok(worker),
        None => unreachable!(),
    }
}

// Takes the lists of a worker to a point.
fn follow_worker(
    alloc: Global,
    walkers: &mut Vec<Walker>,
    known: &Known<'_>,
    worker: u32,
    point: Point,
) -> Result<(), NoMemory>
    requires worker { (1 ≤ worker) × (worker ≤ length walkers.old.items) }
    requires point { point ≤ length known.now }
    requires stand { Each (StandsIn (edits_of known.now)) walkers.old.items }
    ensures stand { OnOk result (Each (StandsIn (edits_of known.now)) walkers.new.items) }
    ensures at { OnOk result ((walker : AWalker) → slice_get walkers.new.items (worker - 1) ≡ Some walker
        → walker.at ≡ point) }
    ensures many { length walkers.new.items ≡ length walkers.old.items }
{
    let walker = &mut walkers[worker as usize - 1];
    known.follow(alloc, walker, point)
}

/// Writes the lines of a report up to its next packet's line, what is told of that packet, and its line. What
/// follows is left.
///
/// `Failed`: the sink could not write. `NoMemory`: memory was refused.
pub(crate) fn write_packet<'a, O: Sink>(
    alloc: Global,
    room: &mut Room,
    walkers: &mut Vec<Walker>,
    tally: &mut Tally,
    known: &Known<'_>,
    left: &'a [u8],
    number: u64,
    hook: Hook,
    bytes: &[u8],
    out: &mut O,
) -> Result<&'a [u8], Put>
    requires short { length bytes.now ≤ FRAME_MAX }
    requires room { (edit : ℕ) → count_at tally.old edit + VISITS_MAX < 2 ^ 64 }
    requires stand { Each (StandsIn (edits_of known.now)) walkers.old.items }
    requires next { (next : NextPacket) × IsNextPacket next known.now (O.written out.old) left.now number hook
        bytes.now (length walkers.old.items) }
    ensures behind { IfOk result (λ behind. (next : NextPacket)
        → IsNextPacket next known.now (O.written out.old) left.now number hook bytes.now
        (length walkers.old.items)
        → IsBehind next.first (O.written out.new) next.whole behind.now next.lines next.rest) }
    ensures up_to { (next : NextPacket) → IsNextPacket next known.now (O.written out.old) left.now number hook
        bytes.now (length walkers.old.items) → AppendsUpTo next.first (O.written out.new) next.whole }
    ensures tally { OnOk result ((next : NextPacket) → IsNextPacket next known.now (O.written out.old) left.now
        number hook bytes.now (length walkers.old.items) → (edit : ℕ) → count_at tally.new edit
        ≡ count_at tally.old edit + times_in (decided_in (names_of known.now)
        (steps_at known.now hook bytes.now next.outcome.points)) edit) }
    ensures few { OnOk result ((edit : ℕ) → count_at tally.new edit ≤ count_at tally.old edit + VISITS_MAX) }
    ensures stand { OnOk result (Each (StandsIn (edits_of known.now)) walkers.new.items) }
    ensures many { length walkers.new.items ≡ length walkers.old.items }
    ensures later { O.faults out.old ≤ O.faults out.new }
    ensures cause { IsErrOf result Put.Failed → Rose (O.faults out.old) (O.faults out.new) }
{
    let told = put_plain(left, out)?;
    let (line, behind) = cut_first(told);
    let worker = read_packet(line, &mut room.points)?;
    let point = first_of(room.points.as_slice());
    follow_worker(alloc, walkers, known, worker, point)?;
    let lists = &walkers[worker as usize - 1].lists;
    tell_packet(room, tally, known, lists, number, hook, bytes, line)?;
    out.write_all(room.page.text())?;
    Ok(behind)
}
