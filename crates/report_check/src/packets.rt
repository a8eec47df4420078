//! The lines of a round's packets.
ghost use Rattle.batch_run.specs.declared.limit.TheConstants.{COMMANDS_MAX};
ghost use Rattle.frame_edit.specs.declared.limits.TheConstants.{FRAME_MAX};
ghost use Rattle.walk_ends.specs.declared.limits.TheConstants.{PACKETS_MAX};
ghost use Rattle.std.specs.Prelude.{◌≡◌, ◌⊎◌, ◌≤◌, ◌<◌, ◌+◌, ◌^◌, ℕ, List, [], true, false, max, length};
ghost use Rattle.std.specs.Prelude.{Ok, Some, None, IfOk, OnOk, IfSome, if◌then◌else◌};
ghost use Rattle.pcap_io.specs.Captures.{AreShort};
ghost use Rattle.walk_rules.specs.Steps.{Standing};
ghost use Rattle.walk_rules.specs.Walks.{Outcome as WalkOutcome, outcome_of};
ghost use Rattle.walk_steps.specs.Told.{IsShortRun};
ghost use Rattle.run_report.specs.PacketTexts.{packet_line};
ghost use Rattle.lawful_runs.specs.Points.{greatest};
ghost use Rattle.report_laws.specs.OfNextLines.Walks.{recorded_by};
ghost use Rattle.state_past.specs.Remembering.{Remembers};
ghost use Rattle.report_check.specs.OfEvents.Cursors.{IsWithin, IsAt, IsStuck, IsNextLine, lines_left};
ghost use Rattle.walk_ends.specs.Passing.{is_pass};
ghost use Rattle.run_counts.specs.Counting.{AreAtMost, count_of, counted_in, both};
ghost use Rattle.report_check.specs.Walks.{ShowsWalk, WalksTo, FaultsBy, IsRefusedShown};
ghost use Rattle.report_check.specs.Walks.{BeginsOutside, StandsIn, StandsAtFirst};
ghost use Rattle.report_check.specs.Reasons.{ending_reason, parting, reason_of};
ghost use Rattle.lawful_runs.specs.declared.loaded.LoadedJob.{LoadedJob};
ghost use Rattle.report_laws.specs.Stands.{Stand};
ghost use Rattle.report_laws.specs.OfWholePaths.FirstBadLines.{IsOpen};
ghost use Rattle.tool_words.specs.declared.reason.Reason.{Reason as ReasonValue};
ghost use Rattle.tool_words.specs.declared.reason.Reason.TheVariants as reasons;
ghost use Rattle.report_check.specs.OfReading.Packets.{ShowsPoints};
ghost use Rattle.filter_state.specs.Sound.{Each};
ghost use Rattle.report_check.specs.Rounds.{ToldRound, IsNextPacket, IsAtPackets, AreWalked};

use crate::events::Cursor;
use crate::reading::{parting, read_packet_line, shows};
use crate::walker::Walker;
use crate::walkers::{Room, Walkers};
use journal_replay::Replay;
use pcap_io::Packets;
use point_walks::{Bounds, PointFault, Thing, walk_at};
use run_counts::RunCounts;
use run_report::push_packet_line;
use state_past::journals::JournalAnswers;
use std::alloc::AllocError;
use tc_base::{Hook, NoMemory, Point};
use tool_words::Reason;
use walk_rules::Verdict;

// In which word of a packet's line its verdict stands, counted from 0.
const VERDICT_WORD: u64 = 4;

// The worker and the points that the next line shows.
fn read_next(
    report: &[u8],
    cursor: Cursor,
    points: &mut Vec<Point>,
) -> Result<Option<u32>, NoMemory>
    requires { IsWithin report.now cursor }
    ensures shows { IfOk result (λ worker. ShowsWalk report.now cursor worker points.new.items) }
    ensures small { IfOk result (λ worker. IfSome worker
        (λ _. Each (λ point. point < 2 ^ 32) points.new.items)) }
    ensures cut { lines_left report.now cursor ≡ [] → result ≡ Ok None }
{
    match cursor.next_line(report) {
        Some(line) => read_packet_line(line, points),
        None => Ok(None),
    }
}

// The greatest point.
fn greatest(points: &[Point]) -> Point
    ensures { result ≡ greatest points.now }
{
    let mut most = 0;
    for point in points {
        most = most.max(*point);
    }
    most
}

// What points have against them.
fn reason_of(fault: PointFault) -> Reason
    ensures { result ≡ reason_of fault }
{
    match fault {
        PointFault::Floor => Reason::Floor,
        PointFault::Early => Reason::Early,
        PointFault::Late => Reason::Late,
        PointFault::Gone(Thing::Mask(_)) => Reason::Mask,
        PointFault::Gone(_) => Reason::Action,
        PointFault::Falling => Reason::Falling,
        PointFault::TooMany => Reason::TooMany,
        PointFault::TooFew => Reason::TooFew,
    }
}

// Walks a frame again at the room's points, within what the worker has seen and the journal's end, and tells
// why that isn't a walk; nothing, where it is one. The worker's lists follow to the first point. Where the
// first point is outside, no memory is wanted.
fn walk_again(
    room: &mut Room,
    walker: &mut Walker,
    replay: &Replay,
    least: Point,
    hook: Hook,
    frame: &[u8],
) -> Result<Option<Reason>, NoMemory>
    requires short { length frame.now ≤ FRAME_MAX }
    requires past { Remembers replay.now.past replay.now.journal.items }
    requires few { length replay.now.journal.items ≤ COMMANDS_MAX }
    requires walker { StandsIn replay.now.journal.items walker.old }
    requires seen { walker.old.at ≤ walker.old.seen }
    ensures yes { result ≡ Ok None → WalksTo replay.now.journal.items hook frame.now
        (max least walker.old.seen) room.old.points.items room.new.walk.standing }
    ensures walker { result ≡ Ok None → StandsIn replay.now.journal.items walker.new
        × StandsAtFirst room.old.points.items walker.new }
    ensures seen { result ≡ Ok None → walker.new.seen ≡ walker.old.seen }
    ensures points { room.new.points.items ≡ room.old.points.items }
    ensures outside { BeginsOutside (max least walker.old.seen) (length replay.now.journal.items)
        room.old.points.items → (reason : ReasonValue) × (result ≡ Ok (Some reason)) }
    ensures why { (reason : ReasonValue) → result ≡ Ok (Some reason)
        → FaultsBy replay.now.journal.items hook frame.now (max least walker.old.seen)
        room.old.points.items reason }
    ensures no { (reason : ReasonValue) → result ≡ Ok (Some reason) → (end : Standing)
        → WalksTo replay.now.journal.items hook frame.now (max least walker.old.seen)
        room.old.points.items end → ⊥ }
{
    let points = room.points.as_slice();
    let journal = replay.journal.as_slice();
    let floor = least.max(walker.seen);
    let ceiling = replay.past.point();
    if points.is_empty() {
        return Ok(Some(Reason::TooFew));
    }
    let first = points[0];
    if first < floor {
        return Ok(Some(Reason::Floor));
    }
    if ceiling < first {
        return Ok(Some(Reason::Late));
    }
    walker.follow(journal, first)?;
    // For the proof: what lists always keep.
    let _actions = walker.lists.actions();
    let answers = JournalAnswers::new(journal, &replay.past, &walker.lists);
    let bounds = Bounds { floor, ceiling };
    let Room { walk, latest, .. } = room;
    match walk_at(walk, latest, &answers, hook, frame, bounds, points)? {
        None => Ok(None),
        Some(fault) => Ok(Some(reason_of(fault))),
    }
}

// Puts the line of a walk that has ended in place of the text that is there.
fn put_line(room: &mut Room, number: u64, worker: u32) -> Result<(), AllocError>
    ensures line { (ended : WalkOutcome) → outcome_of room.old.walk.standing ≡ Some ended → OnOk result
        (room.new.text.items ≡ packet_line number (recorded_by worker room.old.points.items ended)) }
    ensures rest { room.new ≡ record room.old { text = room.new.text } }
{
    room.text.clear();
    let frame = room.walk.frame();
    push_packet_line(
        &mut room.text,
        number,
        worker,
        room.walk.verdict(),
        frame.bytes().len() as u64,
        frame.meta(),
        room.points.as_slice(),
    )
}

// Adds a walk that has ended to what its worker saw and to the counts.
fn note_walk(walker: &mut Walker, counts: &mut RunCounts, room: &Room) -> Result<(), NoMemory>
    requires few { AreAtMost (2 ^ 62) counts.old }
    ensures seen { walker.new
        ≡ record walker.old { seen = max walker.old.seen (greatest room.now.points.items) } }
    ensures counts { (ended : WalkOutcome) → outcome_of room.now.walk.standing ≡ Some ended → OnOk result
        ((serial : ℕ) → count_of counts.new serial ≡ both (count_of counts.old serial)
        (counted_in (recorded_by 1 room.now.points.items ended).executed serial)) }
    ensures short { (ended : WalkOutcome) → outcome_of room.now.walk.standing ≡ Some ended
        → IsShortRun (recorded_by 1 room.now.points.items ended).executed }
{
    walker.seen = walker.seen.max(greatest(room.points.as_slice()));
    counts.add(room.walk.executed())
}

// How many packets passed by this verdict.
fn passes(verdict: Verdict) -> u64
    ensures { result ≡ (if is_pass verdict then 1 else 0) }
{
    u64::from(matches!(verdict, Verdict::Pass))
}

// What the next line has in place of what a walk's has. Of the end of a report it means nothing.
fn other_line(report: &[u8], cursor: Cursor, text: &[u8]) -> Reason
    requires { IsWithin report.now cursor }
    ensures { (line : List ℕ) → IsNextLine report.now cursor line
        → result ≡ ending_reason (parting line text.now) }
{
    let Some(line) = cursor.next_line(report) else {
        return Reason::Verdict;
    };
    if parting(line, text) == VERDICT_WORD {
        Reason::Verdict
    } else {
        Reason::Frame
    }
}

// That reason, where the next line shows this packet, this worker and the room's points, and else that it
// isn't the packet's line. Of the end of a report it means nothing.
fn reason_shown(
    report: &[u8],
    cursor: Cursor,
    room: &mut Room,
    number: u64,
    worker: u32,
    reason: Reason,
) -> Result<Reason, NoMemory>
    requires cursor { IsWithin report.now cursor }
    requires small { Each (λ point. point < 2 ^ 32) room.old.points.items }
    ensures { IfOk result (λ told. (line : List ℕ) → IsNextLine report.now cursor line
        → (ShowsPoints line number worker room.old.points.items × (told ≡ reason))
        ⊎ ((ShowsPoints line number worker room.old.points.items → ⊥) × (told ≡ reasons.Packet))) }
{
    let Some(line) = cursor.next_line(report) else {
        return Ok(reason);
    };
    let Room { points, text, .. } = room;
    if shows(line, number, worker, points.as_slice(), text)? {
        return Ok(reason);
    }
    Ok(Reason::Packet)
}

// Notes why no packet's line may come that shows this worker and the room's points: for that reason, if the
// next line shows them.
fn refuse_shown(
    report: &[u8],
    cursor: &mut Cursor,
    room: &mut Room,
    number: u64,
    worker: u32,
    reason: Reason,
) -> Result<bool, NoMemory>
    requires cursor { IsWithin report.now cursor.old }
    requires small { Each (λ point. point < 2 ^ 32) room.old.points.items }
    ensures within { IsWithin report.now cursor.new }
    ensures refused { IfOk result (λ on. on ≡ false) }
    ensures stuck { result ≡ Ok false → (loaded : LoadedJob) (stand : Stand)
        → IsAt loaded report.now cursor.old stand → IsOpen stand
        → IsRefusedShown loaded report.now cursor.old stand number worker room.old.points.items reason
        → IsStuck loaded report.now cursor.new }
{
    let told = reason_shown(report, *cursor, room, number, worker, reason)?;
    cursor.refuse(report, told);
    Ok(false)
}

/// Goes behind the line of a packet, the one at that place of the capture from 0, of a round before which
/// `least` edits were accepted: `true`, where the line may come, and `false`, where the report is stuck. At
/// the end of the report no memory is wanted.
pub(crate) fn check_packet(
    report: &[u8],
    cursor: &mut Cursor,
    replay: &Replay,
    walkers: &mut Walkers,
    least: Point,
    place: u64,
    hook: Hook,
    frame: &[u8],
) -> Result<bool, NoMemory>
    requires cursor { IsWithin report.now cursor.old }
    requires short { length frame.now ≤ FRAME_MAX }
    requires few { walkers.old.passed + walkers.old.dropped < PACKETS_MAX }
    requires number { place + 1 < 2 ^ 64 }
    requires packet { (told : ToldRound)
        × IsNextPacket told report.now cursor.old replay.now walkers.old least place hook frame.now }
    ensures within { IsWithin report.now cursor.new }
    ensures cut { lines_left report.now cursor.old ≡ [] → result ≡ Ok false }
    ensures further { result ≡ Ok true → cursor.new.line ≡ cursor.old.line + 1 }
    ensures taken { result ≡ Ok true → (told : ToldRound)
        → IsNextPacket told report.now cursor.old replay.now walkers.old least place hook frame.now
        → AreWalked told report.now cursor.new walkers.new (place + 1) }
    ensures stuck { result ≡ Ok false → (told : ToldRound)
        → IsNextPacket told report.now cursor.old replay.now walkers.old least place hook frame.now
        → IsStuck told.loaded report.now cursor.new }
{
    let Some(worker) = read_next(report, *cursor, &mut walkers.room.points)? else {
        cursor.refuse(report, Reason::Packet);
        return Ok(false);
    };
    if worker == 0 || worker as usize > walkers.each.len() {
        return refuse_shown(
            report,
            cursor,
            &mut walkers.room,
            place + 1,
            worker,
            Reason::Worker,
        );
    }
    let walker = &mut walkers.each[worker as usize - 1];
    if let Some(reason) = walk_again(&mut walkers.room, walker, replay, least, hook, frame)? {
        return refuse_shown(report, cursor, &mut walkers.room, place + 1, worker, reason);
    }
    put_line(&mut walkers.room, place + 1, worker)?;
    if !cursor.take(report, walkers.room.text.as_slice()) {
        let reason = other_line(report, *cursor, walkers.room.text.as_slice());
        return refuse_shown(report, cursor, &mut walkers.room, place + 1, worker, reason);
    }
    let passes = passes(walkers.room.walk.verdict());
    walkers.passed += passes;
    walkers.dropped += 1 - passes;
    note_walk(walker, &mut walkers.counts, &walkers.room)?;
    Ok(true)
}

/// Goes behind the lines of a round's packets, all of which come at one hook.
pub(crate) fn check_packets(
    report: &[u8],
    cursor: &mut Cursor,
    replay: &Replay,
    walkers: &mut Walkers,
    least: Point,
    hook: Hook,
    packets: &Packets,
) -> Result<bool, NoMemory>
    requires cursor { IsWithin report.now cursor.old }
    requires short { AreShort packets.now }
    requires few { walkers.old.passed + walkers.old.dropped + length packets.now ≤ PACKETS_MAX }
    requires packets { (told : ToldRound)
        × IsAtPackets told report.now cursor.old replay.now walkers.old least hook packets.now }
    ensures within { IsWithin report.now cursor.new }
    ensures onward { result ≡ Ok true → cursor.old.line ≤ cursor.new.line }
    ensures taken { result ≡ Ok true → (told : ToldRound)
        → IsAtPackets told report.now cursor.old replay.now walkers.old least hook packets.now
        → AreWalked told report.now cursor.new walkers.new (length packets.now) }
    ensures stuck { result ≡ Ok false → (told : ToldRound)
        → IsAtPackets told report.now cursor.old replay.now walkers.old least hook packets.now
        → IsStuck told.loaded report.now cursor.new }
{
    for place in 0..packets.len() {
        let frame = packets.get(place).bytes;
        if !check_packet(
            report,
            cursor,
            replay,
            walkers,
            least,
            place as u64,
            hook,
            frame,
        )? {
            return Ok(false);
        }
    }
    Ok(true)
}
