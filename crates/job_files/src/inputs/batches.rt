//! Batches under a name, with so many commands at most.
ghost use Rattle.std.specs.Prelude.{◌≡◌, [], ◌∷◌, ◌≤◌, length, IfOk, IfErr, OnOk, Some};
ghost use Rattle.tc_base.specs.Outside.{AsksFor};
ghost use Rattle.batch_run.specs.Commands.{commands_of, line_past};
ghost use Rattle.job_files.specs.OfInputs.Holdings.{HasBatch};
ghost use Rattle.job_files.specs.OfInputs.Failures.{IsPastRoom, BatchFails};

use crate::inputs::faults::{bad_input, copied_name};
use crate::inputs::loading::load;
use std::alloc::Global;
use tc_base::{Bytes, Shelf};
use tc_words::{has_words, line_from};
use tool_words::{InputKind, Status};

/// The bytes of a batch, and how many of its lines are commands: those that are neither blank nor a comment.
#[derive(Drop)]
pub struct LoadedBatch {
    pub bytes: Bytes,
    pub commands: u32,
}

// How many commands a batch has, or the line at which they pass the room.
fn count_commands(bytes: &[u8], room: u32) -> Result<u32, u64>
    ensures count { IfOk result (λ count. count ≡ length (commands_of bytes.now)) }
    ensures few { IfOk result (λ count. count ≤ room) }
    ensures past { IfErr result (λ line. line_past room (commands_of bytes.now) ≡ Some line) }
{
    let mut count = 0;
    let mut number = 0;
    let mut at = 0;
    while let Some(line) = line_from(bytes, at) {
        number += 1;
        at = line.next;
        if !has_words(line.text) {
            continue;
        }
        if count == room {
            return Err(number);
        }
        count += 1;
    }
    Ok(count)
}

// The count of commands of the bytes under the name, where they are no more than there is room for.
fn count_within(alloc: Global, name: &str, bytes: &[u8], room: u32) -> Result<u32, Status>
    ensures count { IfOk result (λ count. count ≡ length (commands_of bytes.now)) }
    ensures few { IfOk result (λ _. length (commands_of bytes.now) ≤ room) }
    ensures many { IfErr result (IsPastRoom room name.now bytes.now) }
{
    match count_commands(bytes, room) {
        Ok(count) => Ok(count),
        Err(line) => {
            let name = copied_name(alloc, name)?;
            Err(bad_input(name, line, InputKind::TooManyLines))
        }
    }
}

/// The batch under a name, where it has no more than `room` commands.
///
/// `BadInput` with `TooManyLines` tells the line of the first command for which there is no room.
pub fn load_batch<S: Shelf>(
    alloc: Global,
    shelf: &mut S,
    name: &str,
    room: u32,
) -> Result<LoadedBatch, Status>
    ensures batch { IfOk result (λ batch. HasBatch (S.held shelf.old) room name.now batch.bytes) }
    ensures count { IfOk result (λ batch. batch.commands ≡ length (commands_of batch.bytes)) }
    ensures cause { IfErr result (BatchFails S.held S.read_faults S.failed_name shelf.old shelf.new room
        name.now) }
    ensures held { S.held shelf.new ≡ S.held shelf.old }
    ensures later { S.read_faults shelf.old ≤ S.read_faults shelf.new }
    ensures failed_name { OnOk result (S.failed_name shelf.new ≡ S.failed_name shelf.old) }
    ensures write_faults { S.write_faults shelf.new ≡ S.write_faults shelf.old }
    ensures fetched { AsksFor (S.fetched shelf.old) (S.fetched shelf.new) (name.now ∷ []) result }
    ensures put_names { S.put_names shelf.new ≡ S.put_names shelf.old }
{
    let bytes = load(alloc, shelf, name)?;
    let commands = count_within(alloc, name, &bytes, room)?;
    Ok(LoadedBatch {
        bytes: Bytes::from_vec(bytes),
        commands,
    })
}
