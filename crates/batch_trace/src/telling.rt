//! What is told of one packet.
ghost use Rattle.frame_edit.specs.declared.limits.TheConstants.{FRAME_MAX};
ghost use Rattle.std.specs.Prelude.{◌≡◌, ◌≤◌, ◌<◌, ◌+◌, ◌^◌, ◌++◌, ℕ, List, length, OnOk, IfOk};
ghost use Rattle.tc_base.specs.declared.hook.Hook.{Hook as AHook};
ghost use Rattle.filter_state.specs.Sound.{Each};
ghost use Rattle.filter_origins.specs.Entries.{Entry};
ghost use Rattle.walk_rules.specs.declared.limits.TheConstants.{VISITS_MAX};
ghost use Rattle.batch_walk.specs.Texts.{packet_line};
ghost use Rattle.journal_names.specs.Known.{names_of};
ghost use Rattle.trace_lines.specs.Lines.{decided_in};
ghost use Rattle.walk_trace.specs.Tallies.{count_at, times_in};
ghost use Rattle.batch_trace.specs.Traced.{steps_in, met_text};
ghost use Rattle.batch_trace.specs.Kept.{at_number, IsToldOf, IsKept};
ghost use Rattle.batch_trace.specs.declared.kept_trace.TheConstants.{PLACES};

use crate::kept_trace::{KeptTrace, PLACES, place_of};
use crate::numbering::{push_numbered, put_head};
use crate::traced_batch::TracedBatch;
use batch_walk::push_packet_line;
use capture_walk::PacketEnd;
use std::alloc::{AllocError, Global};
use tc_base::{Hook, NoMemory, Point};
use trace_lines::{Page, Told};
use walk_steps::Walk;
use walk_trace::{Points, Tally, tell_walk};

/// Room for the walk of a packet and for what is told of it, and what was told of frames, kept from packet to
/// packet.
#[derive(Drop)]
pub(crate) struct Room {
    walk: Walk,
    // the lines of a frame that wasn't kept, numbered 0
    page: Page,
    // the edits whose filters decided
    decided: Vec<Point>,
    // `at N`
    head: Vec<u8>,
    // what is told of a packet, with its own line
    pub(crate) text: Vec<u8>,
    pub(crate) kept: Vec<KeptTrace>,
}

// Places at which nothing is kept.
fn make_places(alloc: Global) -> Result<Vec<KeptTrace>, AllocError>
    ensures kept { IfOk result (λ kept. (entries : List Entry) (hook : AHook)
        → Each (IsKept entries hook) kept.items) }
    ensures many { IfOk result (λ kept. PLACES ≤ length kept.items) }
{
    let mut kept = Vec::new(alloc);
    for _ in 0..PLACES {
        kept.push(KeptTrace::new(alloc))?;
    }
    Ok(kept)
}

impl Room {
    ghost use Rattle.std.specs.Prelude.{◌≤◌, List, length, IfOk};
    ghost use Rattle.filter_state.specs.Sound.{Each};
    ghost use Rattle.tc_base.specs.declared.hook.Hook.{Hook as AHook};
    ghost use Rattle.filter_origins.specs.Entries.{Entry};
    ghost use Rattle.batch_trace.specs.Kept.{IsKept};

    /// Room for a walk, and places at which nothing is kept. That for its lines is taken as they come.
    pub(crate) fn new(alloc: Global) -> Result<Room, NoMemory>
        ensures kept { IfOk result (λ room. (entries : List Entry) (hook : AHook)
            → Each (IsKept entries hook) room.kept.items) }
        ensures many { IfOk result (λ room. PLACES ≤ length room.kept.items) }
    {
        Ok(Room {
            walk: Walk::with_room(alloc)?,
            page: Page::new(alloc),
            decided: Vec::new(alloc),
            head: Vec::new(alloc),
            text: Vec::new(alloc),
            kept: make_places(alloc)?,
        })
    }
}

// Puts what a packet of at most 262,144 bytes met over the state that the edits leave behind a page's text, and
// the edits whose filters decided in place of those in a list.
fn tell_met(
    walk: &mut Walk,
    page: &mut Page,
    decided: &mut Vec<Point>,
    traced: &TracedBatch,
    hook: Hook,
    bytes: &[u8],
    number: u64,
) -> Result<(), NoMemory>
    requires short { length bytes.now ≤ FRAME_MAX }
    ensures page { OnOk result (page.new ≡ page.old ++ met_text traced.now hook number bytes.now) }
    ensures decided { OnOk result (decided.new.items
        ≡ decided_in (names_of traced.now) (steps_in traced.now hook bytes.now)) }
    ensures few { OnOk result (length decided.new.items ≤ VISITS_MAX) }
{
    let answers = traced.answers();
    let names = traced.names();
    let points = Points::All(traced.point());
    let told = Told {
        packet: number,
        points: false,
    };
    decided.clear();
    tell_walk(
        walk, &answers, &names, hook, bytes, points, told, page, decided,
    )
}

// Puts the lines of what a frame of at most 262,144 bytes met, numbered 0, into an empty page, and keeps them.
fn tell_anew(
    walk: &mut Walk,
    page: &mut Page,
    decided: &mut Vec<Point>,
    kept: &mut KeptTrace,
    traced: &TracedBatch,
    hook: Hook,
    bytes: &[u8],
) -> Result<(), NoMemory>
    requires short { length bytes.now ≤ FRAME_MAX }
    requires kept { IsKept traced.now hook kept.old }
    ensures told { OnOk result (IsToldOf traced.now hook bytes.now page.new decided.new.items) }
    ensures kept { OnOk result (IsKept traced.now hook kept.new) }
{
    page.clear();
    tell_met(walk, page, decided, traced, hook, bytes, 0)?;
    Ok(kept.keep(bytes, page.text(), decided)?)
}

// Puts what was told of a frame behind a text, numbered by a head, and counts what decided.
fn push_told(
    text: &mut Vec<u8>,
    tally: &mut Tally,
    lines: &[u8],
    decided: &[Point],
    head: &[u8],
) -> Result<(), NoMemory>
    requires few { length decided.now ≤ VISITS_MAX }
    requires room { (edit : ℕ) → count_at tally.old edit + VISITS_MAX < 2 ^ 64 }
    ensures text { (entries : List Entry) (hook : AHook) (frame : List ℕ) (number : ℕ)
        → IsToldOf entries hook frame lines.now decided.now → head.now ≡ at_number number
        → OnOk result (text.new.items ≡ text.old.items ++ met_text entries hook number frame) }
    ensures tally { OnOk result ((edit : ℕ) → count_at tally.new edit
        ≡ count_at tally.old edit + times_in decided.now edit) }
    ensures few { OnOk result ((edit : ℕ) → count_at tally.new edit ≤ count_at tally.old edit + VISITS_MAX) }
{
    push_numbered(text, lines, head)?;
    tally.note(decided)
}

/// Makes the room's text what is told of a packet of at most 262,144 bytes: the lines of what it met over the
/// state that the edits leave, and behind them its own line. What decided is counted.
pub(crate) fn tell_packet(
    room: &mut Room,
    tally: &mut Tally,
    traced: &TracedBatch,
    hook: Hook,
    bytes: &[u8],
    number: u64,
    end: PacketEnd,
) -> Result<(), NoMemory>
    requires short { length bytes.now ≤ FRAME_MAX }
    requires room { (edit : ℕ) → count_at tally.old edit + VISITS_MAX < 2 ^ 64 }
    requires kept { Each (IsKept traced.now hook) room.old.kept.items }
    requires many { PLACES ≤ length room.old.kept.items }
    ensures text { OnOk result (room.new.text.items
        ≡ met_text traced.now hook number bytes.now ++ packet_line number end) }
    ensures tally { OnOk result ((edit : ℕ) → count_at tally.new edit ≡ count_at tally.old edit
        + times_in (decided_in (names_of traced.now) (steps_in traced.now hook bytes.now)) edit) }
    ensures few { OnOk result ((edit : ℕ) → count_at tally.new edit ≤ count_at tally.old edit + VISITS_MAX) }
    ensures kept { OnOk result (Each (IsKept traced.now hook) room.new.kept.items) }
    ensures many { length room.new.kept.items ≡ length room.old.kept.items }
{
    let Room {
        walk,
        page,
        decided,
        head,
        text,
        kept,
    } = room;
    text.clear();
    put_head(head, number)?;
    let kept = &mut kept[place_of(bytes)];
    if kept.is_of(bytes) {
        push_told(text, tally, &kept.lines, &kept.decided, head)?;
    } else {
        tell_anew(walk, page, decided, kept, traced, hook, bytes)?;
        push_told(text, tally, page.text(), decided, head)?;
    }
    Ok(push_packet_line(text, number, end)?)
}
