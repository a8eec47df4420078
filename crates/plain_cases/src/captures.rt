//! Captures, read, written and kept in part.
use crate::same::same;
use pcap_io::{Capture, CaptureFault, Excerpt, PacketView, Packets, read_whole, write};
use std::alloc::{AllocError, Global};
use std::test::Fail;
use tc_base::NoMemory;

// The empty capture of a little-endian host with microseconds, spelled by hand from the manual's
// layout, and one of a big-endian host with nanoseconds.
const EMPTY: [u8; 24] = [
    0xd4, 0xc3, 0xb2, 0xa1, 2, 0, 4, 0, 0, 0, 0, 0, 0, 0, 0, 0, 0, 0, 4, 0, 1, 0, 0, 0,
];

const EMPTY_BIG_NANOS: [u8; 24] = [
    0xa1, 0xb2, 0x3c, 0x4d, 0, 2, 0, 4, 0, 0, 0, 0, 0, 0, 0, 0, 0, 4, 0, 0, 0, 0, 0, 1,
];

// The answer's first fault, or how many packets it has.
fn packet_count(alloc: Global, bytes: &[u8]) -> Result<usize, CaptureFault> {
    let capture = read_whole(alloc, bytes.to_vec(alloc)?)?;
    Ok(capture.packets.len())
}

// A record at second `seconds`, with one length as the captured and the original one.
fn put_record(
    out: &mut Vec<u8>,
    seconds: u8,
    length: [u8; 4],
    content: &[u8],
) -> Result<(), AllocError> {
    out.extend_from_slice(&[seconds, 0, 0, 0, 0, 0, 0, 0])?;
    out.extend_from_slice(&length)?;
    out.extend_from_slice(&length)?;
    out.extend_from_slice(content)
}

fn two_packets(alloc: Global) -> Result<Vec<u8>, AllocError> {
    let mut bytes = EMPTY.to_vec(alloc)?;
    put_record(&mut bytes, 7, [60, 0, 0, 0], &[0x5a; 60])?;
    put_record(&mut bytes, 8, [60, 0, 0, 0], &[0xa5; 60])?;
    Ok(bytes)
}

fn count_when_cut(length: usize) -> Result<usize, CaptureFault> {
    match length {
        0..=23 => Err(CaptureFault::CutHeader {
            offset: length as u64,
        }),
        24 => Ok(0),
        25..=99 => Err(CaptureFault::CutRecord { offset: 24 }),
        100 => Ok(1),
        101..=175 => Err(CaptureFault::CutRecord { offset: 100 }),
        _ => Ok(2),
    }
}

// The length at which a cut capture is told otherwise.
fn other_cut(alloc: Global, bytes: &[u8]) -> Option<usize> {
    (0..=bytes.len()).find(|length| {
        let length = (*length).min(bytes.len());
        packet_count(alloc, &bytes[..length]) != count_when_cut(length)
    })
}

#[test]
fn is_cut_at_every_length(rt: HostRuntime) -> Result<(), Fail> {
    let bytes = two_packets(rt.alloc())?;
    same(&rt, bytes.len(), 176);
    same(&rt, other_cut(rt.alloc(), &bytes), None);
    Ok(())
}

// Places in the header with another byte, and what they are told as.
const OTHER_HEADERS: &[(usize, u8, CaptureFault)] = &[
    (3, 0xa2, CaptureFault::BadMagic),
    (6, 3, CaptureFault::BadVersion),
    (20, 2, CaptureFault::NotEthernet),
];

#[test]
fn refuses_other_headers(rt: HostRuntime) {
    for (place, byte, fault) in OTHER_HEADERS {
        let mut bytes = EMPTY;
        if *place < bytes.len() {
            bytes[*place] = *byte;
        }
        same(&rt, packet_count(rt.alloc(), &bytes), Err(*fault));
    }
}

// How many packets a capture has, of which one has this length, in bytes little end first.
fn count_with(alloc: Global, length: [u8; 4]) -> Result<Result<usize, CaptureFault>, AllocError> {
    let content = vec![in alloc; 0u8; 262_144]?;
    let mut bytes = EMPTY.to_vec(alloc)?;
    put_record(&mut bytes, 0, length, &content)?;
    Ok(packet_count(alloc, &bytes))
}

#[test]
fn takes_the_longest_packet_alone(rt: HostRuntime) -> Result<(), Fail> {
    same(&rt, count_with(rt.alloc(), [0, 0, 4, 0])?, Ok(1));
    let fault = CaptureFault::TooLong {
        offset: 24,
        length: 262_145,
    };
    same(&rt, count_with(rt.alloc(), [1, 0, 4, 0])?, Err(fault));
    Ok(())
}

fn read_and_written(alloc: Global, bytes: &[u8]) -> Result<Vec<u8>, CaptureFault> {
    let capture = read_whole(alloc, bytes.to_vec(alloc)?)?;
    Ok(write(alloc, &capture)?)
}

#[test]
fn gives_back_what_it_read(rt: HostRuntime) -> Result<(), Fail> {
    let packets = two_packets(rt.alloc())?;
    for bytes in [&EMPTY[..], &EMPTY_BIG_NANOS[..], packets.as_slice()] {
        same(&rt, read_and_written(rt.alloc(), bytes)?.as_slice(), bytes);
    }
    Ok(())
}

// How many packets there are, and bytes in them, and whether each had 7 bytes at first.
fn counts_of(packets: &Packets) -> (usize, usize, bool) {
    let are_such = packets.iter().all(|packet| packet.original == 7);
    (packets.iter().count(), packets.byte_count(), are_such)
}

// A capture of a big-endian host with one packet, and what is counted of it.
fn write_big(alloc: Global) -> Result<((usize, usize, bool), Vec<u8>), NoMemory> {
    let mut packets = Packets::new(alloc);
    packets.push(PacketView {
        seconds: 0x0102_0304,
        fraction: 5,
        original: 7,
        bytes: &[0xee],
    })?;
    let counts = counts_of(&packets);
    let capture = Capture {
        big: true,
        nanos: true,
        packets,
    };
    Ok((counts, write(alloc, &capture)?))
}

#[test]
fn writes_a_packet_in_big_order(rt: HostRuntime) -> Result<(), Fail> {
    let (counts, written) = write_big(rt.alloc())?;
    same(&rt, counts, (1, 1, true));
    let record = [1, 2, 3, 4, 0, 0, 0, 5, 0, 0, 0, 1, 0, 0, 0, 7, 0xee];
    same(&rt, written.get(24..), Some(record.as_slice()));
    Ok(())
}

// The capture's last packet as it is, and then another one.
fn last_and_another(alloc: Global, capture: &Capture) -> Result<Vec<u8>, NoMemory> {
    let mut excerpt = Excerpt::new(alloc, capture)?;
    if let Some(last) = capture.packets.len().checked_sub(1) {
        excerpt.keep(last)?;
    }
    excerpt.push(PacketView {
        seconds: 7,
        fraction: 0,
        original: 1,
        bytes: &[0xee],
    })?;
    excerpt.into_pieces().joined()
}

fn output_of_two(alloc: Global) -> Result<Vec<u8>, CaptureFault> {
    let capture = read_whole(alloc, two_packets(alloc)?)?;
    Ok(last_and_another(alloc, &capture)?)
}

#[test]
fn makes_an_output_of_its_input(rt: HostRuntime) -> Result<(), Fail> {
    let mut expected = EMPTY.to_vec(rt.alloc())?;
    put_record(&mut expected, 8, [60, 0, 0, 0], &[0xa5; 60])?;
    put_record(&mut expected, 7, [1, 0, 0, 0], &[0xee])?;
    let output = output_of_two(rt.alloc())?;
    same(&rt, output.as_slice(), expected.as_slice());
    Ok(())
}
