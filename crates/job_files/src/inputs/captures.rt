//! Captures under a name, with so many packets at most.
ghost use Rattle.std.specs.Prelude.{◌≡◌, ◌≤◌, [], ◌∷◌, length, IfOk, IfErr, OnOk, OnErr, Some, None};
ghost use Rattle.pcap_io.specs.Captures.{AreShort};
ghost use Rattle.tc_base.specs.Outside.{AsksFor};
ghost use Rattle.job_files.specs.OfInputs.Broken.{break_of, IsTooMany};
ghost use Rattle.job_files.specs.OfInputs.Holdings.{HasCapture};
ghost use Rattle.job_files.specs.OfInputs.Failures.{CaptureFails};

use crate::inputs::faults::{bad_input, copied_name};
use crate::inputs::loading::load;
use pcap_io::{Capture, CaptureFault, read_whole};
use std::alloc::Global;
use tc_base::{NoMemory, Shelf};
use tool_words::{Break, InputKind, Status};

// Where and how the bytes break; a fault that is want of memory is handed on.
fn break_in(fault: CaptureFault) -> Result<Break, NoMemory>
    ensures broken { IfOk result (λ found. break_of fault ≡ Some found) }
    ensures refused { OnErr result (break_of fault ≡ None) }
{
    let (place, kind) = match fault {
        CaptureFault::CutHeader { offset } => (offset, InputKind::CutHeader),
        CaptureFault::BadMagic => (0, InputKind::BadMagic),
        CaptureFault::BadVersion => (4, InputKind::BadVersion),
        CaptureFault::NotEthernet => (20, InputKind::NotEthernet),
        CaptureFault::CutRecord { offset } => (offset, InputKind::CutRecord),
        CaptureFault::TooLong { offset, length } => (offset, InputKind::TooLong { length }),
        CaptureFault::NoMemory(memory) => return Err(memory),
    };
    Ok(Break { place, kind })
}

// Refuses a capture of more packets than there is room for.
fn within_room(alloc: Global, name: &str, capture: Capture, room: usize) -> Result<Capture, Status>
    ensures same { IfOk result (λ c. c ≡ capture) }
    ensures few { IfOk result (λ c. length c.packets ≤ room) }
    ensures many { IfErr result (IsTooMany room name.now (length capture.packets)) }
{
    if capture.packets.len() > room {
        let name = copied_name(alloc, name)?;
        return Err(bad_input(name, 0, InputKind::TooManyPackets));
    }
    Ok(capture)
}

/// The capture under a name, where it has no more than `room` packets.
///
/// `BadInput` tells the first fault of the bytes, or, where they have none, `TooManyPackets` at 0.
pub fn load_capture<S: Shelf>(
    alloc: Global,
    shelf: &mut S,
    name: &str,
    room: usize,
) -> Result<Capture, Status>
    ensures capture { IfOk result (HasCapture (S.held shelf.old) room name.now) }
    ensures short { IfOk result (λ c. AreShort c.packets) }
    ensures cause { IfErr result (CaptureFails S.held S.read_faults S.failed_name shelf.old shelf.new room
        name.now) }
    ensures held { S.held shelf.new ≡ S.held shelf.old }
    ensures later { S.read_faults shelf.old ≤ S.read_faults shelf.new }
    ensures failed_name { OnOk result (S.failed_name shelf.new ≡ S.failed_name shelf.old) }
    ensures write_faults { S.write_faults shelf.new ≡ S.write_faults shelf.old }
    ensures fetched { AsksFor (S.fetched shelf.old) (S.fetched shelf.new) (name.now ∷ []) result }
    ensures put_names { S.put_names shelf.new ≡ S.put_names shelf.old }
{
    let bytes = load(alloc, shelf, name)?;
    match read_whole(alloc, bytes) {
        Ok(capture) => within_room(alloc, name, capture, room),
        Err(fault) => {
            let found = break_in(fault)?;
            let name = copied_name(alloc, name)?;
            Err(bad_input(name, found.place, found.kind))
        }
    }
}
