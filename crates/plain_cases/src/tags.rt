//! Tags that are put on, changed and taken off.
use crate::same::same;
use frame_edit::{Frame, NoRoom};
use std::alloc::{AllocError, Global};
use std::test::Fail;

/// A UDP packet from 10.0.0.254, port 5000, to 10.0.0.1, port 53, in an Ethernet frame of 60 bytes.
const UDP: &[u8] = b"\x02\0\0\0\0\x01\x02\0\0\0\0\x02\x08\0\
    \x45\0\0\x2e\0\0\0\0\x40\x11\0\0\x0a\0\0\xfe\x0a\0\0\x01\
    \x13\x88\0\x35\0\x1a\0\0\0\0\0\0\0\0\0\0\0\0\0\0\0\0\0\0\0\0";

// The packet with these bytes behind its two addresses.
fn tagged(alloc: Global, tags: &[u8]) -> Result<Vec<u8>, AllocError> {
    let mut bytes = Vec::from_slice(alloc, &UDP[..12])?;
    bytes.extend_from_slice(tags)?;
    bytes.extend_from_slice(&UDP[12..])?;
    Ok(bytes)
}

#[test]
fn tags_of_a_packet(rt: HostRuntime) -> Result<(), Fail> {
    let pushed = tagged(rt.alloc(), b"\x81\0\x60\x14")?;
    let modified = tagged(rt.alloc(), b"\x88\xa8\x60\x05")?;
    let twice = tagged(rt.alloc(), b"\x81\0\x30\x05\x88\xa8\x60\x05")?;
    let mut frame = Frame::with_room(rt.alloc())?;
    frame.load(UDP);
    same(&rt, frame.ether_type(), 0x0800);
    same(&rt, frame.push(0x8100, 0x6014), Ok(()));
    same(&rt, frame.bytes(), pushed.as_slice());
    frame.modify(5, None, 0x88a8);
    same(&rt, frame.bytes(), modified.as_slice());
    same(&rt, frame.push(0x88a8, 0x7fff), Ok(()));
    frame.modify(5, Some(1), 0x8100);
    same(&rt, frame.bytes(), twice.as_slice());
    frame.pop();
    same(&rt, frame.ether_type(), 0x88a8);
    frame.pop();
    same(&rt, frame.bytes(), UDP);
    Ok(())
}

#[test]
fn short_frames_have_no_tag(rt: HostRuntime) -> Result<(), Fail> {
    let bytes = b"\x02\0\0\0\0\x01\x02\0\0\0\0\x02\x81\0\0\x05\x08";
    let mut frame = Frame::with_room(rt.alloc())?;
    frame.load(&bytes[..13]);
    same(&rt, frame.push(0x8100, 5), Ok(()));
    same(&rt, frame.bytes(), &bytes[..13]);
    same(&rt, frame.ether_type(), 0);
    for length in 14..18 {
        frame.load(&bytes[..length]);
        frame.pop();
        frame.modify(6, Some(7), 0x88a8);
        same(&rt, frame.bytes(), &bytes[..length]);
        same(&rt, frame.ether_type(), 0x8100);
    }
    Ok(())
}

#[test]
fn room_for_tags(rt: HostRuntime) -> Result<(), Fail> {
    let mut frame = Frame::with_room(rt.alloc())?;
    frame.load(UDP);
    for _ in 0..16 {
        same(&rt, frame.push(0x8100, 5), Ok(()));
    }
    same(&rt, frame.push(0x8100, 5), Err(NoRoom));
    same(&rt, frame.bytes().len(), 124);
    Ok(())
}

#[test]
fn no_room_behind_the_longest(rt: HostRuntime) -> Result<(), Fail> {
    let mut longest = vec![in rt.alloc(); 0u8; 262_144]?;
    longest[12] = 0x81;
    let mut frame = Frame::with_room(rt.alloc())?;
    frame.load(&longest);
    same(&rt, frame.push(0x8100, 5), Err(NoRoom));
    frame.pop();
    same(&rt, frame.bytes().len(), 262_140);
    same(&rt, frame.push(0x8100, 5), Ok(()));
    Ok(())
}

fn crosses_threads<T: Send>() {}

// Proved where it is called: a frame may be moved to a thread.
#[test]
fn frame_crosses_threads() {
    crosses_threads::<Frame>();
}
