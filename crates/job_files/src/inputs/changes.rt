//! The files of a change.
ghost use Rattle.std.specs.Prelude.{◌≡◌, ◌≤◌, [], ◌∷◌, IfOk, IfErr, OnOk};
ghost use Rattle.pcap_io.specs.Captures.{AreShort};
ghost use Rattle.tc_base.specs.Outside.{AsksFor};
ghost use Rattle.tool_words.specs.Requests.{files_seen};
ghost use Rattle.job_files.specs.Changes.{HasChange, names_in_order, ChangeFails};

use crate::inputs::batches::load_batch;
use crate::inputs::captures::load_capture;
use batch_run::COMMANDS_MAX;
use pcap_io::Capture;
use std::alloc::Global;
use tc_base::{Bytes, Shelf};
use tool_words::{ChangeNames, Status};
use walk_ends::PACKETS_MAX;

/// The bytes of a batch and of the change that is applied behind it, and the packets that come meanwhile.
#[derive(Drop)]
pub struct LoadedChange {
    pub batch: Bytes,
    pub change: Bytes,
    pub capture: Capture,
}

/// The files of a change, in this order: the batch, the change, the capture; the first fault ends the loading.
///
/// `BadInput` with `TooManyLines` tells the file and the line at which the commands of both batches together
/// pass 262,144, and else what `load_capture` tells of the capture.
pub fn load_change<S: Shelf>(
    alloc: Global,
    shelf: &mut S,
    names: &ChangeNames<'_>,
) -> Result<LoadedChange, Status>
    ensures files { IfOk result (HasChange (S.held shelf.old) (files_seen names.now)) }
    ensures short { IfOk result (λ files. AreShort files.capture.packets) }
    ensures cause { IfErr result (ChangeFails S.held S.read_faults S.failed_name shelf.old shelf.new
        (files_seen names.now)) }
    ensures held { S.held shelf.new ≡ S.held shelf.old }
    ensures later { S.read_faults shelf.old ≤ S.read_faults shelf.new }
    ensures failed_name { OnOk result (S.failed_name shelf.new ≡ S.failed_name shelf.old) }
    ensures write_faults { S.write_faults shelf.new ≡ S.write_faults shelf.old }
    ensures fetched { AsksFor (S.fetched shelf.old) (S.fetched shelf.new) (names_in_order (files_seen names.now))
        result }
    ensures put_names { S.put_names shelf.new ≡ S.put_names shelf.old }
{
    let batch = load_batch(alloc, shelf, names.batch, COMMANDS_MAX)?;
    let change = load_batch(alloc, shelf, names.change, COMMANDS_MAX - batch.commands)?;
    let capture = load_capture(alloc, shelf, names.capture, PACKETS_MAX)?;
    Ok(LoadedChange {
        batch: batch.bytes,
        change: change.bytes,
        capture,
    })
}
