//! How a file's fault is told.
ghost use Rattle.std.specs.Prelude.{◌≡◌, IfOk};

use std::alloc::{AllocError, Global};
use tc_base::Bytes;
use tool_words::{InputKind, Status};

/// A copy of a file's name, which alone wants memory where a fault of the file is told.
pub fn copied_name(alloc: Global, name: &str) -> Result<Bytes, AllocError>
    ensures { IfOk result (λ b. b ≡ name.now) }
{
    Ok(Bytes::from_vec(Vec::from_slice(alloc, name.as_bytes())?))
}

/// The file of that name wasn't read.
pub(crate) fn read_fault(name: Bytes) -> Status
    ensures { result ≡ Status.ReadFault name }
{
    Status::ReadFault { name }
}

/// The file of that name breaks its form.
pub fn bad_input(name: Bytes, place: u64, kind: InputKind) -> Status
    ensures { result ≡ Status.BadInput name place kind }
{
    Status::BadInput { name, place, kind }
}
