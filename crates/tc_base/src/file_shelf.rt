ghost use Rattle.std.specs.Prelude.{◌≡◌, ◌≢◌, ◌≤◌, ◌↔◌, None, IsOk, IfOk, IfErr, OnOk, IfSome};
ghost use Rattle.std.specs.Prelude.{vec_len, string_bytes};
ghost use Rattle.std.specs.Io.KnownBytes.{Appends};
ghost use Rattle.std.specs.IoError.{error_kind};
ghost use Rattle.std.specs.Option.{option_map};
ghost use Rattle.tc_base.specs.Counts.{count_after_fetch, name_after_fetch};
ghost use Rattle.tc_base.specs.Disk.{Asked, Puts, Writes};
ghost use Rattle.tc_base.specs.Memory.{no_memory};
ghost use Rattle.tc_base.specs.Outside.{PutCounts};
ghost use Rattle.tc_base.specs.Pieces.{joined};

use crate::disk::{Disk, System};
use crate::drafts::{Draft, open_draft, settle};
use crate::faults::Faults;
use crate::{Fetch, NoMemory, Pieces, Put, Shelf};
use std::alloc::Global;
use std::fs::{self, OpenFile};
use std::io::{self, BufWriter, ErrorKind, Read, Write};
use std::rt::Files;

/// The longest file that is read, in bytes. A length then fits 32 bits, and a fetch ends.
const MOST_BYTES: u64 = 4_294_967_295;

/// The bytes that pieces are gathered up to before they are written.
const BUFFER: usize = 256 * 1024;

/// The files of the system, by path.
///
/// It tells nothing of what they hold, so it never answers `Missing`. A file that is not there, a
/// directory and a file of more than 4,294,967,295 bytes are all read faults. A put writes a file
/// beside the name, and renames it once it is whole: until then, and where the put fails, what stood
/// there stays, with its bytes. It is not forced to the disk. A link, a device, a pipe, and a file in a
/// folder that may not be written, are written in place, and may be cut short where the put fails.
#[derive(Drop)]
pub struct FileShelf<'a, R: Files + AllocGlobal> {
    rt: &'a R,
    faults: Faults,
}

impl<'a, R: Files + AllocGlobal> FileShelf<'a, R> {
    /// A shelf whose counts are 0. No file is touched.
    pub fn new(rt: &'a R) -> Self
        ensures read_faults { ⟦<FileShelf<'a, R> as Shelf>⟧.read_faults result ≡ 0 }
        ensures write_faults { ⟦<FileShelf<'a, R> as Shelf>⟧.write_faults result ≡ 0 }
        ensures failed_name { ⟦<FileShelf<'a, R> as Shelf>⟧.failed_name result ≡ None }
    {
        FileShelf {
            rt,
            faults: Faults::new(),
        }
    }
}

impl<R: Files + AllocGlobal> Shelf for FileShelf<'_, R> {
    ghost held = { λ _. None };

    ghost read_faults = { λ s. s.faults.read };

    ghost failed_name = { λ s. option_map string_bytes s.faults.failed };

    ghost write_faults = { λ s. s.faults.write };

    ghost fetched = { λ _. None };

    ghost put_names = { λ _. None };

    fn fetch(&mut self, name: &str) -> Result<Vec<u8>, Fetch> {
        let copy = String::from_str(self.rt.alloc(), name)?;
        answer(&mut self.faults, copy, read_file(self.rt, name))
    }

    fn put(&mut self, name: &str, bytes: &[u8]) -> Result<(), Put> {
        let mut disk = System { rt: self.rt };
        let written = replace(&mut disk, self.rt.alloc(), name, bytes);
        put_answer(&mut self.faults, written)
    }

    fn put_pieces(&mut self, name: &str, pieces: &Pieces<'_>) -> Result<(), Put> {
        let mut disk = System { rt: self.rt };
        let written = replace_by_pieces(&mut disk, self.rt.alloc(), name, pieces);
        put_answer(&mut self.faults, written)
    }
}

// Has these bytes stand under the name.
fn replace<D: Disk>(disk: &mut D, alloc: Global, name: &str, bytes: &[u8]) -> io::Result<()>
    ensures { Asked (D.asked disk.old) (D.asked disk.new) (Puts name.now bytes.now result) }
{
    let Draft { file, beside } = open_draft(disk, alloc, name)?;
    let written = write_bytes(disk, file, bytes);
    settle(disk, name, beside, written)
}

// Has these pieces stand under the name.
fn replace_by_pieces<D: Disk>(
    disk: &mut D,
    alloc: Global,
    name: &str,
    pieces: &Pieces<'_>,
) -> io::Result<()>
    ensures { Asked (D.asked disk.old) (D.asked disk.new)
        (Puts name.now (joined pieces.now.pieces) result) }
{
    let Draft { file, beside } = open_draft(disk, alloc, name)?;
    let written = write_joined(disk, alloc, file, pieces);
    settle(disk, name, beside, written)
}

// Writes these bytes, and closes the file.
fn write_bytes<D: Disk>(disk: &mut D, mut file: D::File, bytes: &[u8]) -> io::Result<()>
    ensures { Asked (D.asked disk.old) (D.asked disk.new)
        (Writes (D.File.contents file) bytes.now result) }
{
    let written = file.write_all(bytes);
    disk.close(file);
    written
}

// Writes these pieces, and closes the file.
fn write_joined<D: Disk>(
    disk: &mut D,
    alloc: Global,
    file: D::File,
    pieces: &Pieces<'_>,
) -> io::Result<()>
    ensures { Asked (D.asked disk.old) (D.asked disk.new)
        (Writes (D.File.contents file) (joined pieces.now.pieces) result) }
{
    let file = write_pieces(alloc, file, pieces)?;
    disk.close(file);
    Ok(())
}

// Writes these pieces, and gives the file back. Short ones go out together. Where a write fails the file
// is closed.
fn write_pieces<F: Write + Drop>(alloc: Global, file: F, pieces: &Pieces<'_>) -> io::Result<F>
    ensures { IfOk result (λ written.
        Appends (F.contents file) (F.contents written) (joined pieces.now.pieces)) }
{
    let mut out = BufWriter::with_capacity(alloc, BUFFER, file)?;
    for index in 0..pieces.len() {
        out.write_all(pieces.piece(index))?;
    }
    out.flush()?;
    let (file, _empty) = out.into_parts();
    Ok(file)
}

// What a put answers after this write. Want of memory is no fault of the file.
fn put_answer(faults: &mut Faults, written: io::Result<()>) -> Result<(), Put>
    ensures written { OnOk result (IsOk written) }
    ensures counts { PutCounts faults.old.write faults.new.write result }
    ensures read { faults.new.read ≡ faults.old.read }
    ensures failed { faults.new.failed ≡ faults.old.failed }
{
    match written {
        Ok(()) => Ok(()),
        Err(e) if e.kind() == ErrorKind::OutOfMemory => Err(Put::NoMemory(NoMemory::told())),
        Err(_) => Err(faults.put_failed()),
    }
}

// What a fetch of `name` answers after this read. Want of memory is no fault of the file.
fn answer(faults: &mut Faults, name: String, read: io::Result<Vec<u8>>) -> Result<Vec<u8>, Fetch>
    ensures bytes { IfOk result (λ bytes. read ≡ Ok bytes) }
    ensures later { faults.old.read ≤ faults.new.read }
    ensures read { faults.new.read ≡ count_after_fetch faults.old.read result }
    ensures failed { faults.new.failed ≡ name_after_fetch faults.old.failed name result }
    ensures write { faults.new.write ≡ faults.old.write }
    ensures never_missing { result ≢ Err Fetch.Missing }
    ensures memory { IfErr read (λ e. (result ≡ Err (Fetch.NoMemory no_memory))
        ↔ (error_kind e ≡ ErrorKind.OutOfMemory)) }
{
    match read {
        Ok(bytes) => Ok(bytes),
        Err(e) if e.kind() == ErrorKind::OutOfMemory => Err(Fetch::NoMemory(NoMemory::told())),
        Err(_) => Err(faults.fetch_failed(name)),
    }
}

// The bytes of a file.
fn read_file<R: Files + AllocGlobal>(rt: &R, name: &str) -> io::Result<Vec<u8>>
    ensures { IfOk result (λ bytes. vec_len bytes ≤ MOST_BYTES) }
{
    let file = fs::open(rt, name)?;
    let told = file.metadata()?.len();
    read_whole(rt.alloc(), file, told)
}

// The bytes of an open file. One that tells a greater length is refused before a byte is read, and one
// that tells none is read up to the first byte too many. The length that it tells is reserved once,
// with one byte more, so that the end is found in the room at hand.
fn read_whole<F: Read + Drop>(alloc: Global, file: F, told: u64) -> io::Result<Vec<u8>>
    ensures all { IfOk result (λ bytes. IfSome (F.remaining file) (λ rest. bytes.items ≡ rest)) }
    ensures most { IfOk result (λ bytes. vec_len bytes ≤ MOST_BYTES) }
{
    if told > MOST_BYTES {
        return Err(io::Error::from(ErrorKind::FileTooLarge));
    }
    let mut bytes = Vec::with_capacity(alloc, told as usize + 1)?;
    file.take(MOST_BYTES + 1).read_to_end(&mut bytes)?;
    if bytes.len() as u64 > MOST_BYTES {
        return Err(io::Error::from(ErrorKind::FileTooLarge));
    }
    Ok(bytes)
}
