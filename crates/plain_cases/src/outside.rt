//! Shelves and sinks, in memory and of the system.
use crate::same::same;
use std::alloc::Global;
use std::fmt::Display;
use std::io::{self, Print};
use std::path::PathBuf;
use std::test::Fail;
use std::{env, fs, process};
use tc_base::{
    Bytes, Fetch, FileShelf, Files, MemShelf, MemSink, NoMemory, Numbers, OpenGate, Pairs, Pieces,
    Put, Shelf, Sink, StdSink,
};

// The longest file that is read, in bytes.
const MOST_BYTES: u64 = 4_294_967_295;

// The bytes that a sink of the system holds back.
const BUFFER: usize = 64 * 1024;

// Want of memory may come at any call, so no clause rules out that it always does.
#[test]
fn a_shelf_in_memory_holds_what_was_put(rt: HostRuntime) -> Result<(), Fail> {
    let mut shelf = MemShelf::new(rt.alloc(), Numbers::from_vec(Vec::new(rt.alloc())));
    shelf.insert("a", b"one")?;
    same(&rt, shelf.get("a"), Some(b"one".as_slice()));
    shelf.put("a", b"two")?;
    let read = shelf.fetch("a")?;
    same(&rt, read.as_slice(), b"two".as_slice());
    Ok(())
}

#[test]
fn a_shelf_in_memory_fails_when_it_is_told(rt: HostRuntime) -> Result<(), Fail> {
    let second = Numbers::from_vec(vec![in rt.alloc(); 2u32]?);
    let mut shelf = MemShelf::new(rt.alloc(), second);
    shelf.put("a", b"one")?;
    same(&rt, shelf.fetch("a").err(), Some(Fetch::Failed));
    same(&rt, shelf.fetch("b").err(), Some(Fetch::Missing));
    same(&rt, shelf.get("a"), Some(b"one".as_slice()));
    Ok(())
}

#[test]
fn a_sink_in_memory_has_what_was_written(rt: HostRuntime) -> Result<(), Fail> {
    let mut sink = MemSink::new(rt.alloc(), Numbers::from_vec(Vec::new(rt.alloc())));
    sink.write_all(b"th")?;
    sink.write_all(b"ree")?;
    same(&rt, sink.bytes(), b"three".as_slice());
    Ok(())
}

#[test]
fn an_output_takes_what_it_holds_back(rt: HostRuntime) -> Result<(), Fail> {
    Ok(StdSink::new(&rt, rt.alloc())?.flush()?)
}

fn crosses_threads<T: Send + Sync>() {}

// Proved where it is called: these types may be moved to a thread and shared by several.
#[test]
fn plain_data_crosses_threads() {
    crosses_threads::<OpenGate>();
    crosses_threads::<Bytes>();
    crosses_threads::<Numbers>();
    crosses_threads::<Pairs>();
    crosses_threads::<Files>();
}

// A path of this process's own among the system's passing files.
fn own_path(rt: &HostRuntime, end: &str) -> Result<PathBuf, Fail> {
    let name = format!(in rt.alloc(); "shelf-{}-{end}", process::id(rt.process()))?;
    let folder = env::temp_dir(rt)?;
    Ok(folder.join(rt.alloc(), name.as_str())?)
}

// No clause knows what the system's files hold.
#[test]
fn a_file_is_read_as_it_was_put(rt: HostRuntime) -> Result<(), Fail> {
    let path = own_path(&rt, "whole")?;
    let mut shelf = FileShelf::new(&rt);
    for bytes in [b"longer than the next".as_slice(), b"bytes".as_slice()] {
        shelf.put(path.as_str(), bytes)?;
        same(&rt, shelf.fetch(path.as_str())?.as_slice(), bytes);
    }
    fs::remove_file(&rt, path.as_path())?;
    Ok(())
}

// Two stretches that meet, one behind a gap, and bytes of its own.
fn pieces(alloc: Global) -> Result<Pieces<'static>, NoMemory> {
    let mut pieces = Pieces::over(alloc, b"input");
    pieces.lend(0, 2)?;
    pieces.lend(2, 3)?;
    pieces.lend(4, 5)?;
    pieces.push(b"-own")?;
    Ok(pieces)
}

#[test]
fn pieces_are_put_in_order(rt: HostRuntime) -> Result<(), Fail> {
    let path = own_path(&rt, "pieces")?;
    let mut shelf = FileShelf::new(&rt);
    let pieces = pieces(rt.alloc())?;
    same(&rt, pieces.len(), 3);
    shelf.put_pieces(path.as_str(), &pieces)?;
    let read = shelf.fetch(path.as_str())?;
    same(&rt, read.as_slice(), b"inpt-own".as_slice());
    fs::remove_file(&rt, path.as_path())?;
    Ok(())
}

// Nor does one know which of them are faults: a file that is too long, none, and a folder.
#[test]
fn bad_files_are_told(rt: HostRuntime) -> Result<(), Fail> {
    let path = own_path(&rt, "long")?;
    let missing = own_path(&rt, "missing")?;
    let folder = env::temp_dir(&rt)?;
    let mut shelf = FileShelf::new(&rt);
    fs::create(&rt, path.as_path())?.set_len(MOST_BYTES + 1)?;
    for bad in [path.as_str(), missing.as_str(), folder.as_str()] {
        same(&rt, shelf.fetch(bad).err(), Some(Fetch::Failed));
    }
    fs::remove_file(&rt, path.as_path())?;
    Ok(())
}

#[test]
fn a_folder_is_no_file_to_put(rt: HostRuntime) -> Result<(), Fail> {
    let folder = env::temp_dir(&rt)?;
    let mut shelf = FileShelf::new(&rt);
    same(&rt, shelf.put(folder.as_str(), b""), Err(Put::Failed));
    let pieces = pieces(rt.alloc())?;
    same(
        &rt,
        shelf.put_pieces(folder.as_str(), &pieces),
        Err(Put::Failed),
    );
    Ok(())
}

/// An output that takes nothing.
struct Closed;

impl Print for Closed {
    fn print<D: Display + Drop>(&self, _value: D) -> io::Result<()> {
        self.write_all(b"")
    }

    fn println<D: Display + Drop>(&self, _value: D) -> io::Result<()> {
        self.write_all(b"")
    }

    fn write_all(&self, _bytes: &[u8]) -> io::Result<()> {
        Err(io::Error::from(io::ErrorKind::BrokenPipe))
    }
}

// No clause knows whether the output took the bytes.
#[test]
fn an_output_that_takes_nothing_is_told(rt: HostRuntime) -> Result<(), Fail> {
    let long = vec![in rt.alloc(); b'x'; BUFFER + 1]?;
    let mut sink = StdSink::new(&Closed, rt.alloc())?;
    sink.write_all(b"short")?;
    same(&rt, sink.flush(), Err(Put::Failed));
    same(&rt, sink.write_all(&long), Err(Put::Failed));
    Ok(())
}
