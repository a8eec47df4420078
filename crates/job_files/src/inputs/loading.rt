//! Bytes under a name.
ghost use Rattle.std.specs.Prelude.{◌≡◌, [], ◌∷◌, ◌≤◌, IfOk, IfErr, OnOk};
ghost use Rattle.tc_base.specs.Outside.{AsksFor};
ghost use Rattle.job_files.specs.OfInputs.Holdings.{Holds};
ghost use Rattle.job_files.specs.OfInputs.Failures.{LoadFails};

use crate::inputs::faults::{copied_name, read_fault};
use std::alloc::Global;
use tc_base::{Fetch, Shelf};
use tool_words::Status;

/// The bytes under a name.
///
/// `ReadFault`: nothing stands under the name, or it could not be read. `NoMemory`: memory was refused.
pub fn load<S: Shelf>(alloc: Global, shelf: &mut S, name: &str) -> Result<Vec<u8>, Status>
    ensures bytes { IfOk result (λ v. Holds (S.held shelf.old) name.now v.items) }
    ensures cause { IfErr result (LoadFails S.held S.read_faults S.failed_name shelf.old shelf.new name.now) }
    ensures held { S.held shelf.new ≡ S.held shelf.old }
    ensures later { S.read_faults shelf.old ≤ S.read_faults shelf.new }
    ensures failed_name { OnOk result (S.failed_name shelf.new ≡ S.failed_name shelf.old) }
    ensures write_faults { S.write_faults shelf.new ≡ S.write_faults shelf.old }
    ensures fetched { AsksFor (S.fetched shelf.old) (S.fetched shelf.new) (name.now ∷ []) result }
    ensures put_names { S.put_names shelf.new ≡ S.put_names shelf.old }
{
    match shelf.fetch(name) {
        Ok(bytes) => Ok(bytes),
        Err(Fetch::NoMemory(memory)) => Err(Status::NoMemory(memory)),
        Err(Fetch::Missing) => Err(read_fault(copied_name(alloc, name)?)),
        Err(Fetch::Failed) => Err(read_fault(copied_name(alloc, name)?)),
    }
}
