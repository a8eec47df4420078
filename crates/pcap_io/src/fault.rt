ghost use Rattle.std.specs.Prelude.{◌≡◌};
ghost use Rattle.pcap_io.specs.declared.fault.CaptureFault.TheVariants as faults;
ghost use Rattle.tc_base.specs.Memory.{no_memory};

use std::alloc::{AllocError, AllocFailed};
use tc_base::NoMemory;

/// Why bytes are no capture: their first fault, or want of memory.
#[derive(Clone, Copy, Debug, PartialEq, Eq)]
pub enum CaptureFault {
    /// Fewer than the 24 bytes of a header; the offset is the length of the file.
    CutHeader { offset: u64 },
    /// The magic word is none of the four.
    BadMagic,
    /// The version is not 2.4.
    BadVersion,
    /// The link type is not 1.
    NotEthernet,
    /// The file ends within the record that begins at the offset.
    CutRecord { offset: u64 },
    /// The record at the offset says a captured length above 262,144.
    TooLong { offset: u64, length: u32 },
    /// Want of memory, which says nothing of the bytes.
    NoMemory(NoMemory),
}

impl From<NoMemory> for CaptureFault {
    ghost from_gives = { λ memory e. e ≡ faults.NoMemory memory };

    fn from(memory: NoMemory) -> Self {
        CaptureFault::NoMemory(memory)
    }
}

impl From<AllocError> for CaptureFault {
    ghost from_gives = { λ _ e. e ≡ faults.NoMemory no_memory };

    fn from(refused: AllocError) -> Self {
        CaptureFault::NoMemory(NoMemory::from(refused))
    }
}

impl From<AllocFailed<u32>> for CaptureFault {
    ghost from_gives = { λ _ e. e ≡ faults.NoMemory no_memory };

    fn from(refused: AllocFailed<u32>) -> Self {
        CaptureFault::NoMemory(NoMemory::from(refused))
    }
}
