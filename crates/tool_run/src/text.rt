//! Writing texts.
ghost use Rattle.std.specs.Prelude.{◌≡◌, ◌+◌, ◌<◌, ◌≤◌, ◌^◌, length, OnOk, IsErrOf};
ghost use Rattle.tc_base.specs.Outside.{Rose, Appended, AppendsUpTo};
ghost use Rattle.walk_texts.specs.Texts.{joined};
ghost use Rattle.batch_walk.specs.Texts.{packet_line, packet_lines};
ghost use Rattle.batch_walk.specs.Walked.{told_text};

use crate::packet_line::PacketLine;
use batch_walk::WalkText;
use capture_walk::Ends;
use std::alloc::Global;
use tc_base::{Put, Sink};

// Writes a line for each packet, numbered from 1. Each is made of the one before.
fn write_packets<O: Sink>(alloc: Global, ends: &Ends, out: &mut O) -> Result<(), Put>
    ensures all { OnOk result (Appended (O.written out.old) (O.written out.new)
        (joined (packet_lines 1 ends.now))) }
    ensures up_to { AppendsUpTo (O.written out.old) (O.written out.new) (joined (packet_lines 1 ends.now)) }
    ensures later { O.faults out.old ≤ O.faults out.new }
    ensures cause { IsErrOf result Put.Failed → Rose (O.faults out.old) (O.faults out.new) }
{
    let mut line = PacketLine::new(alloc)?;
    for end in ends.iter() {
        line.turn_to(end)?;
        out.write_all(&line.text)?;
    }
    Ok(())
}

// Where the line ends that starts here: behind the next line feed, or with the text.
fn line_end(text: &[u8], start: usize) -> usize
    requires { start < length text.now }
    ensures moves { start < result }
    ensures within { result ≤ length text.now }
{
    match text[start..].iter().position(|byte| *byte == b'\n') {
        Some(at) => start + at + 1,
        None => text.len(),
    }
}

/// Writes a text line by line.
pub fn write_text<O: Sink>(text: &[u8], out: &mut O) -> Result<(), Put>
    ensures all { OnOk result (Appended (O.written out.old) (O.written out.new) text.now) }
    ensures up_to { AppendsUpTo (O.written out.old) (O.written out.new) text.now }
    ensures later { O.faults out.old ≤ O.faults out.new }
    ensures cause { IsErrOf result Put.Failed → Rose (O.faults out.old) (O.faults out.new) }
{
    let mut start = 0;
    while start < text.len() {
        let end = line_end(text, start);
        out.write_all(&text[start..end])?;
        start = end;
    }
    Ok(())
}

/// Writes the text of a walk, line by line.
pub fn write_walk<O: Sink>(alloc: Global, text: &WalkText, out: &mut O) -> Result<(), Put>
    ensures all { OnOk result (Appended (O.written out.old) (O.written out.new) (told_text text.now)) }
    ensures up_to { AppendsUpTo (O.written out.old) (O.written out.new) (told_text text.now) }
    ensures cause { IsErrOf result Put.Failed → Rose (O.faults out.old) (O.faults out.new) }
{
    write_text(&text.stop, out)?;
    write_packets(alloc, &text.ends, out)?;
    write_text(&text.closing, out)
}
