//! Random frames, as they stand on the wire.
use crate::dice::Dice;
use std::alloc::{AllocError, Global};

// The addresses of the link.
const MACS: &[u8] = &[2, 0, 0, 0, 0, 1, 2, 0, 0, 0, 0, 2];

// What may stand behind them, twice: no tag, or one.
const TAGS: &[&[u8]] = &[
    &[],
    &[],
    &[0x81, 0, 0, 5],
    &[0x81, 0, 0x70, 6],
    &[0x81, 0, 0xb5, 5],
    &[0x88, 0xa8, 0x30, 9],
];

// EtherType and header up to the addresses: IPv4 with UDP or TCP, at three times to live; no IP at all.
const HEADERS: &[&[u8]] = &[
    &[8, 0, 0x45, 0, 0, 46, 0, 0, 0, 0, 0x40, 17, 0, 0],
    &[8, 0, 0x45, 0, 0, 46, 0, 0, 0, 0, 0x4f, 17, 0, 0],
    &[8, 0, 0x45, 0, 0, 46, 0, 0, 0, 0, 0x80, 6, 0, 0],
    &[8, 6, 0, 1, 8, 0, 6, 4, 0, 1, 2, 0, 0, 0],
];

// Source and destination.
const HOSTS: &[&[u8]] = &[
    &[10, 0, 0, 254, 10, 0, 0, 1],
    &[10, 0, 0, 254, 10, 0, 0, 2],
    &[11, 0, 0, 254, 10, 0, 0, 1],
    &[11, 0, 0, 254, 10, 0, 0, 9],
];

const PORTS: &[&[u8]] = &[&[0x13, 0x88, 0, 53], &[0x13, 0x88, 0, 80]];

// A frame with up to two tags.
fn whole_frame(alloc: Global, dice: &mut Dice) -> Result<Vec<u8>, AllocError> {
    let mut bytes = MACS.to_vec(alloc)?;
    bytes.extend_from_slice(dice.one(TAGS))?;
    bytes.extend_from_slice(dice.one(TAGS))?;
    bytes.extend_from_slice(dice.one(HEADERS))?;
    bytes.extend_from_slice(dice.one(HOSTS))?;
    bytes.extend_from_slice(dice.one(PORTS))?;
    bytes.resize(60, 0)?;
    Ok(bytes)
}

/// A frame, which one time in four is cut.
pub(crate) fn frame(alloc: Global, dice: &mut Dice) -> Result<Vec<u8>, AllocError> {
    let mut bytes = whole_frame(alloc, dice)?;
    if dice.below(4) == 0 {
        bytes.truncate(dice.below(60));
    }
    Ok(bytes)
}
