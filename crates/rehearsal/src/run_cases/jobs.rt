//! Jobs in memory.

use std::alloc::{AllocError, Global};
use tc_base::{MemShelf, NoMemory, Numbers};

// A little-endian capture in microseconds, without packets.
const NO_PACKET: [u8; 24] = [
    0xd4, 0xc3, 0xb2, 0xa1, 2, 0, 4, 0, 0, 0, 0, 0, 0, 0, 0, 0, 0, 0, 4, 0, 1, 0, 0, 0,
];

// The record of a packet of 42 bytes.
const RECORD: [u8; 16] = [1, 0, 0, 0, 0, 0, 0, 0, 42, 0, 0, 0, 42, 0, 0, 0];

// From 10.0.0.254 to 10.0.0.1, by UDP to port 53.
const FRAME: [u8; 42] = [
    2, 0, 0, 0, 0, 1, 2, 0, 0, 0, 0, 2, 8, 0, 0x45, 0, 0, 28, 0, 0, 0, 0, 64, 17, 0, 0, 10, 0, 0,
    254, 10, 0, 0, 1, 0x13, 0x88, 0, 53, 0, 8, 0, 0,
];

/// A capture with a packet to each of these hosts of 10.0.0.0/24.
pub(crate) fn capture_to(alloc: Global, hosts: &[u8]) -> Result<Vec<u8>, AllocError> {
    let mut bytes = NO_PACKET.to_vec(alloc)?;
    for host in hosts {
        let mut frame = FRAME;
        frame[33] = *host;
        bytes.extend_from_slice(&RECORD)?;
        bytes.extend_from_slice(&frame)?;
    }
    Ok(bytes)
}

/// No files. None that is put there will fail to be read.
pub(crate) fn no_files(alloc: Global) -> MemShelf {
    MemShelf::new(alloc, Numbers::from_vec(Vec::new(alloc)))
}

/// A shelf that was filled.
pub(crate) fn filled(shelf: MemShelf, filled: Result<(), NoMemory>) -> Result<MemShelf, NoMemory> {
    match filled {
        Ok(()) => Ok(shelf),
        Err(fault) => {
            drop(shelf);
            Err(fault)
        }
    }
}
