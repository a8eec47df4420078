//! Files that are written beside the name under which they come to stand.
ghost use Rattle.std.specs.Prelude.{IfOk, IsOk, OnOk, string_bytes};
ghost use Rattle.std.specs.Option.{option_map};
ghost use Rattle.tc_base.specs.Disk.{Asked, Cuts, IsBeside, OpensOrNot, OpensBeside, Settles};

use crate::disk::{Disk, Standing};
use std::alloc::Global;
use std::io::{self, ErrorKind};
use std::path::Path;

/// The names that are tried for a file beside another. Each run that was killed may have left one.
const SIDE_NAMES: u32 = 1_000;

/// A file that is open for what is to stand under a name.
#[derive(Drop)]
pub(crate) struct Draft<F: Drop> {
    pub file: F,
    /// Where it lies until it is whole; `None` under the name itself.
    pub beside: Option<String>,
}

// The name with this number, in the folder of another.
fn side_name(alloc: Global, name: &str, number: u32) -> io::Result<String>
    ensures { IfOk result (λ side. IsBeside name.now (string_bytes side)) }
{
    let own = format!(in alloc; ".clsact-{number}.part")?;
    let path = Path::new(name).with_file_name(alloc, own.as_str())?;
    Ok(path.into_string())
}

// A new file in the folder of a name, or none where none may be made there.
fn beside<D: Disk>(disk: &mut D, alloc: Global, name: &str) -> io::Result<Option<Draft<D::File>>>
    ensures { Asked (D.asked disk.old) (D.asked disk.new) (OpensBeside D.File.contents name.now result) }
{
    for number in 0..SIDE_NAMES {
        let side = side_name(alloc, name, number)?;
        match disk.make(side.as_str()) {
            Ok(file) => {
                return Ok(Some(Draft {
                    file,
                    beside: Some(side),
                }));
            }
            Err(e) if e.kind() == ErrorKind::AlreadyExists => {}
            Err(e)
                if matches!(
                    e.kind(),
                    ErrorKind::PermissionDenied | ErrorKind::InvalidFilename
                ) => {
                return Ok(None);
            }
            Err(e) => return Err(e),
        }
    }
    Err(io::Error::from(ErrorKind::AlreadyExists))
}

// What stands under the name is cut to nothing, and written.
fn in_place<D: Disk>(disk: &mut D, name: &str) -> io::Result<Draft<D::File>>
    ensures { Asked (D.asked disk.old) (D.asked disk.new) (Cuts D.File.contents name.now result) }
{
    Ok(Draft {
        file: disk.cut(name)?,
        beside: None,
    })
}

// A new file beside a name, or where none may be made there, what stands under the name.
fn beside_or_in_place<D: Disk>(
    disk: &mut D,
    alloc: Global,
    name: &str,
) -> io::Result<Draft<D::File>>
    ensures { Asked (D.asked disk.old) (D.asked disk.new) (OpensOrNot D.File.contents name.now result) }
{
    match beside(disk, alloc, name)? {
        Some(draft) => Ok(draft),
        None => in_place(disk, name),
    }
}

/// Opens a file for what is to stand under a name. What is a file there, and may be written, keeps its
/// bytes until `settle`, and the new one has its rights. A link, a device, a pipe, and a file in a folder
/// that may not be written, are written in place.
pub(crate) fn open_draft<D: Disk>(
    disk: &mut D,
    alloc: Global,
    name: &str,
) -> io::Result<Draft<D::File>>
    ensures { Asked (D.asked disk.old) (D.asked disk.new) (OpensOrNot D.File.contents name.now result) }
{
    match disk.look(name)? {
        Standing::Else => in_place(disk, name),
        Standing::Nothing => beside_or_in_place(disk, alloc, name),
        Standing::File { rights } => {
            // A rename asks for rights in the folder alone.
            disk.try_write(name)?;
            let draft = beside_or_in_place(disk, alloc, name)?;
            // Where the file system has no rights to set, the file is as good without.
            disk.give_rights(&draft.file, rights);
            Ok(draft)
        }
    }
}

/// Ends a draft that is closed: where all of it was written it comes to stand under the name, and else what
/// lies beside is taken away.
pub(crate) fn settle<D: Disk>(
    disk: &mut D,
    name: &str,
    beside: Option<String>,
    written: io::Result<()>,
) -> io::Result<()>
    ensures written { OnOk result (IsOk written) }
    ensures calls { Asked (D.asked disk.old) (D.asked disk.new)
        (Settles name.now (option_map string_bytes beside) result) }
{
    let Some(beside) = beside else {
        return written;
    };
    let settled = match written {
        Ok(()) => disk.rename(beside.as_str(), name),
        Err(e) => Err(e),
    };
    if settled.is_err() {
        disk.remove(beside.as_str());
    }
    settled
}
