//! What needs a shelf and a sink of one's own: captures at each length, and calls outside that fail
//! (`faults`). What the program does with files stands in the folder cases/.
mod fault_table;
mod faults;
mod gateway;

use crate::commands::tool;
use crate::same::same;
use std::alloc::{AllocError, Global};
use std::sync::Wait;
use std::test::Fail;
use std::thread::Threads;
use tc_base::{MemShelf, MemSink, NoMemory, Numbers, OpenGate};

const HOOK: &str = "qdisc add dev eth0 clsact\n";

const DROP: &str = "qdisc add dev eth0 clsact\n\
    filter add dev eth0 ingress protocol ip pref 10 flower dst_ip 10.0.0.1/32 action drop\n";

// A little-endian capture in microseconds, without packets.
const EMPTY: [u8; 24] = [
    0xd4, 0xc3, 0xb2, 0xa1, 2, 0, 4, 0, 0, 0, 0, 0, 0, 0, 0, 0, 0, 0, 4, 0, 1, 0, 0, 0,
];

// A big-endian one in nanoseconds.
const BIG: [u8; 24] = [
    0xa1, 0xb2, 0x3c, 0x4d, 0, 2, 0, 4, 0, 0, 0, 0, 0, 0, 0, 0, 0, 4, 0, 0, 0, 0, 0, 1,
];

// A UDP frame from 10.0.0.254 to 10.0.0.1, port 53.
const FRAME: [u8; 60] = [
    2, 0, 0, 0, 0, 1, 2, 0, 0, 0, 0, 2, 8, 0, 0x45, 0, 0, 0x2e, 0, 0, 0, 0, 0x40, 0x11, 0, 0, 10,
    0, 0, 0xfe, 10, 0, 0, 1, 0x13, 0x88, 0, 0x35, 0, 0x1a, 0, 0, 0, 0, 0, 0, 0, 0, 0, 0, 0, 0, 0,
    0, 0, 0, 0, 0, 0, 0,
];

const TWO: &str = "packet 1 drop length 60\npacket 2 pass length 60\n\
    counter serial 1 gact index 1 packets 1 bytes 60\n\
    summary edits 2 refused 0 packets 2 passed 1 dropped 1\nend\n";

const WALK: [&str; 5] = ["walk", "ingress", "batch", "capture", "output"];

fn word(big: bool, number: u8) -> [u8; 4] {
    if big {
        [0, 0, 0, number]
    } else {
        [number, 0, 0, 0]
    }
}

// Adds packet `number`, with its frame.
fn add_frame(bytes: &mut Vec<u8>, big: bool, number: u8, frame: &[u8]) -> Result<(), AllocError> {
    let length = u8::try_from(frame.len()).unwrap_or(u8::MAX);
    for part in [number, 0, length, length] {
        bytes.extend_from_slice(&word(big, part))?;
    }
    bytes.extend_from_slice(frame)
}

// Adds packet `number`, whose frame goes to 10.0.0.`number`.
fn add(bytes: &mut Vec<u8>, big: bool, number: u8) -> Result<(), AllocError> {
    let mut frame = FRAME;
    frame[33] = number;
    add_frame(bytes, big, number, &frame)
}

fn two_packets(alloc: Global, big: bool) -> Result<Vec<u8>, AllocError> {
    let mut bytes = if big { BIG } else { EMPTY }.to_vec(alloc)?;
    add(&mut bytes, big, 1)?;
    add(&mut bytes, big, 2)?;
    Ok(bytes)
}

fn numbers(alloc: Global, list: &[u32]) -> Result<Numbers, AllocError> {
    Ok(Numbers::from_vec(list.to_vec(alloc)?))
}

fn shelf(alloc: Global, batch: &str, capture: &[u8], fails: &[u32]) -> Result<MemShelf, NoMemory> {
    let mut shelf = MemShelf::new(alloc, numbers(alloc, fails)?);
    shelf.insert("batch", batch.as_bytes())?;
    shelf.insert("capture", capture)?;
    Ok(shelf)
}

// The status, as its exit number and its text.
fn run<R: AllocGlobal + Threads + Wait + Sync>(
    rt: &R,
    words: &[&str],
    shelf: &mut MemShelf,
    out: &mut MemSink,
) -> Result<String, Fail> {
    let alloc = rt.alloc();
    let mut list = Vec::new(alloc);
    for word in words {
        list.push(String::from_str(alloc, word)?)?;
    }
    let status = tool(rt, alloc, &list, shelf, out, &OpenGate);
    let number = status.exit_number();
    Ok(format!(in alloc; "{number} {status}")?)
}

fn walk<R: AllocGlobal + Threads + Wait + Sync>(
    rt: &R,
    batch: &str,
    capture: &[u8],
) -> Result<(String, MemShelf, MemSink), Fail> {
    let fails = numbers(rt.alloc(), &[])?;
    let mut held = shelf(rt.alloc(), batch, capture, &[])?;
    let mut out = MemSink::new(rt.alloc(), fails);
    match run(rt, &WALK, &mut held, &mut out) {
        Ok(status) => Ok((status, held, out)),
        Err(fail) => {
            drop((held, out));
            Err(fail)
        }
    }
}

// The status alone.
fn status_of<R: AllocGlobal + Threads + Wait + Sync>(
    rt: &R,
    batch: &str,
    capture: &[u8],
) -> Result<String, Fail> {
    let (status, held, out) = walk(rt, batch, capture)?;
    drop((held, out));
    Ok(status)
}

// Packet 2 as it stands in a capture.
fn second(alloc: Global, big: bool) -> Result<Vec<u8>, AllocError> {
    let mut bytes = Vec::new(alloc);
    add(&mut bytes, big, 2)?;
    Ok(bytes)
}

// Whether an output is there, and has this header and these packets.
fn is_output(output: Option<&[u8]>, header: &[u8], packets: &[u8]) -> bool {
    output.is_some_and(|output| {
        output.len() == header.len().saturating_add(packets.len())
            && output.starts_with(header)
            && output.ends_with(packets)
    })
}

// Whether a walk ends well, with this text, and with an output of this header and these packets.
fn walks_to<R: AllocGlobal + Threads + Wait + Sync>(
    rt: &R,
    batch: &str,
    capture: &[u8],
    text: &str,
    (header, packets): (&[u8], &[u8]),
) -> Result<bool, Fail> {
    let (status, held, out) = walk(rt, batch, capture)?;
    let is_right = status.as_str() == "0 "
        && out.bytes() == text.as_bytes()
        && is_output(held.get("output"), header, packets);
    drop((status, held, out));
    Ok(is_right)
}

// Whether the walk of two packets drops the first one.
fn two_are_walked<R: AllocGlobal + Threads + Wait + Sync>(rt: &R, big: bool) -> Result<bool, Fail> {
    let capture = two_packets(rt.alloc(), big)?;
    let packets = second(rt.alloc(), big)?;
    let header = if big { BIG } else { EMPTY };
    walks_to(rt, DROP, &capture, TWO, (&header, &packets))
}

#[test]
fn walks_write_text_and_capture(rt: HostRuntime) -> Result<(), Fail> {
    let none = "summary edits 1 refused 0 packets 0 passed 0 dropped 0\nend\n";
    assert!(rt; walks_to(&rt, HOOK, &EMPTY, none, (&EMPTY, &[]))?);
    assert!(rt; two_are_walked(&rt, false)?);
    assert!(rt; two_are_walked(&rt, true)?);
    Ok(())
}

// What comes of the two packets' 176 bytes, cut to a length.
fn told_of_cut(alloc: Global, length: usize) -> Result<String, AllocError> {
    match length {
        0..24 => format!(in alloc; "3 bad input capture at {length}: CutHeader"),
        25..100 => String::from_str(alloc, "3 bad input capture at 24: CutRecord"),
        101..176 => String::from_str(alloc, "3 bad input capture at 100: CutRecord"),
        _ => String::from_str(alloc, "0 "),
    }
}

// Whether a cut capture is told as it has to be, with an output and a text or with none of both.
fn is_told<R: AllocGlobal + Threads + Wait + Sync>(rt: &R, bytes: &[u8]) -> Result<bool, Fail> {
    let told = told_of_cut(rt.alloc(), bytes.len())?;
    let (status, held, out) = walk(rt, DROP, bytes)?;
    let is_told = status == told && held.get("output").is_none() == out.bytes().is_empty();
    drop((status, held, out));
    Ok(is_told)
}

#[test]
fn cut_captures_are_told(rt: HostRuntime) -> Result<(), Fail> {
    let bytes = two_packets(rt.alloc(), false)?;
    for length in 0..bytes.len() + 1 {
        assert!(rt; is_told(&rt, &bytes[..length])?, "cut at {length}");
    }
    Ok(())
}

// The status for a capture of so many packets without bytes.
fn status_of_many<R: AllocGlobal + Threads + Wait + Sync>(
    rt: &R,
    packets: usize,
) -> Result<String, Fail> {
    let mut many = EMPTY.to_vec(rt.alloc())?;
    many.resize(packets.saturating_mul(16).saturating_add(24), 0)?;
    status_of(rt, HOOK, &many)
}

#[test]
fn many_packets_are_told(rt: HostRuntime) -> Result<(), Fail> {
    same(&rt, status_of_many(&rt, 1_048_576)?.as_str(), "0 ");
    let told = "3 bad input capture at 0: TooManyPackets";
    same(&rt, status_of_many(&rt, 1_048_577)?.as_str(), told);
    Ok(())
}
