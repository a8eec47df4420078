ghost use Rattle.std.specs.Prelude.{◌≡◌, [], None, IsOk, IfOk, OnOk};
ghost use Rattle.std.specs.Io.Buffered.{writer_buffer, writer_contents};
ghost use Rattle.std.specs.Io.KnownBytes.{Appends, Keeps};
ghost use Rattle.tc_base.specs.Outside.{PutCounts};
ghost use Rattle.tc_base.specs.StdSink.{bytes_kept};

use crate::faults::count_write_fault;
use crate::{NoMemory, Put, Sink};
use std::alloc::Global;
use std::io::{self, BufWriter, Printer, Write};

/// The size of the buffer, in bytes.
const BUFFER: usize = 64 * 1024;

/// The standard output, through a buffer that is taken once and never grows.
///
/// It tells nothing of what was written. A piece longer than the buffer goes straight out. A piece
/// that was answered `Ok` may still stand in the buffer, so its fault may show at a later piece or
/// at `flush`: call that once at the end, and wherever the bytes so far are to be seen. A sink that
/// is dropped hands on what it has, and nobody learns of a fault then.
#[derive(Drop)]
pub struct StdSink<'a, P: Print> {
    out: BufWriter<Printer<'a, P>>,
    faults: u64,
}

impl<'a, P: Print> StdSink<'a, P> {
    /// Takes the buffer. Nothing is written yet.
    ///
    /// `NoMemory`: memory was refused.
    pub fn new(rt: &'a P, alloc: Global) -> Result<Self, NoMemory>
        ensures { IfOk result (λ sink. ⟦<StdSink<'a, P> as Sink>⟧.faults sink ≡ 0) }
    {
        match BufWriter::with_capacity(alloc, BUFFER, io::writer(rt)) {
            Ok(out) => Ok(StdSink { out, faults: 0 }),
            Err(_) => Err(NoMemory::told()),
        }
    }

    /// Hands on all that stands in the buffer.
    ///
    /// `Failed`: the output took less.
    pub fn flush(&mut self) -> Result<(), Put>
        ensures handed_on { OnOk result (bytes_kept self.new ≡ []) }
        ensures counts { PutCounts (⟦<StdSink<'a, P> as Sink>⟧.faults self.old)
            (⟦<StdSink<'a, P> as Sink>⟧.faults self.new) result }
    {
        hand_on(&mut self.out, &mut self.faults)
    }
}

impl<P: Print> Sink for StdSink<'_, P> {
    ghost written = { λ _. None };

    ghost faults = { λ s. s.faults };

    fn write_all(&mut self, bytes: &[u8]) -> Result<(), Put> {
        write_piece(&mut self.out, &mut self.faults, bytes)
    }
}

// Writes all of a piece.
fn write_piece<W: Write>(out: &mut W, faults: &mut u64, bytes: &[u8]) -> Result<(), Put>
    ensures all { OnOk result (Appends (W.contents out.old) (W.contents out.new) bytes.now) }
    ensures counts { PutCounts faults.old faults.new result }
{
    let written = out.write_all(bytes);
    sink_answer(faults, written)
}

// Hands on what stands in a buffer.
fn hand_on<W: Write + Drop>(out: &mut BufWriter<W>, faults: &mut u64) -> Result<(), Put>
    ensures all { OnOk result (writer_buffer out.new ≡ []) }
    ensures kept { Keeps (writer_contents W.contents out.old) (writer_contents W.contents out.new) }
    ensures counts { PutCounts faults.old faults.new result }
{
    let flushed = out.flush();
    sink_answer(faults, flushed)
}

// What a write or a flush that ended so is answered.
fn sink_answer(faults: &mut u64, written: io::Result<()>) -> Result<(), Put>
    ensures written { OnOk result (IsOk written) }
    ensures counts { PutCounts faults.old faults.new result }
{
    match written {
        Ok(()) => Ok(()),
        Err(_) => Err(count_write_fault(faults)),
    }
}
