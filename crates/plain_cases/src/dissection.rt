//! The fields of frames by hand.
use crate::same::same;
use flow_dissect::key_of;
use std::alloc::{AllocError, Global};

// Two addresses.
const ADDRESSES: &[u8] = b"\x02\0\0\0\0\x01\x02\0\0\0\0\x02";

// 46 bytes of a UDP packet from 10.0.0.254, port 5000, to 10.0.0.1, port 53, with time to live 64.
const UDP: &[u8] =
    b"\x45\x00\x00\x2e\x00\x00\x00\x00\x40\x11\x00\x00\x0a\x00\x00\xfe\x0a\x00\x00\x01\
    \x13\x88\x00\x35\x00\x1a\x00\x00\0\0\0\0\0\0\0\0\0\0\0\0\0\0\0\0\0\0";

// The same by TCP, with flags 0x012 (SYN and ACK).
const TCP: &[u8] =
    b"\x45\x00\x00\x28\x00\x00\x00\x00\x40\x06\x00\x00\x0a\x00\x00\xfe\x0a\x00\x00\x01\
    \x13\x88\x00\x35\0\0\0\0\0\0\0\0\x50\x12\0\0\0\0\0\0\0\0\0\0\0\0";

// A UDP packet from 2001:db8::fe to 2001:db8::1 behind its first two bytes, with hop limit 64.
const UDP6: &[u8] = b"\x00\x00\x00\x08\x11\x40\x20\x01\x0d\xb8\0\0\0\0\0\0\0\0\0\0\0\xfe\
    \x20\x01\x0d\xb8\0\0\0\0\0\0\0\0\0\0\0\x01\x13\x88\x00\x35\x00\x08\x00\x00";

// The same with one byte less than the header of IPv6.
const CUT_UDP6: &[u8] = b"\x00\x00\x00\x08\x11\x40\x20\x01\x0d\xb8\0\0\0\0\0\0\0\0\0\0\0\xfe\
    \x20\x01\x0d\xb8\0\0\0\0\0\0\0\0\0\0\0";

// What fills a header up to 60 bytes behind the 46 of a packet, and then the ports.
const BEHIND: &[u8] = b"\0\0\0\0\0\0\0\0\0\0\0\0\0\0\x13\x88\x00\x35";

// Protocol, source, destination, and in one word time to live and type of service; the IPv6 source and
// destination in halves.
const IPV4: [u64; 4] = [17, 0x0a0000fe, 0x0a000001, 0x4000];

const IPV6: [u64; 4] = [0x2001_0db8_0000_0000, 0xfe, 0x2001_0db8_0000_0000, 1];

const NO_IP: [u64; 4] = [0; 4];

// Ports 5000 and 53 in one word.
const PORTS: u64 = 0x0035_1388;

fn joined(alloc: Global, parts: [&[u8]; 4]) -> Result<Vec<u8>, AllocError> {
    let mut bytes = Vec::new(alloc);
    for part in parts {
        bytes.extend_from_slice(part)?;
    }
    Ok(bytes)
}

// The EtherTypes and tags, the part of a packet from a place on, and what comes behind; then the words of the
// two tags, of IP, of the ports and of IPv6.
type FrameCase<'a> = (
    &'a [u8],
    &'a [u8],
    usize,
    &'a [u8],
    [u64; 2],
    [u64; 4],
    u64,
    [u64; 4],
);

const FRAMES: &[FrameCase<'static>] = &[
    (b"\x08\x00", UDP, 0, b"", [0, 0], IPV4, PORTS, NO_IP),
    (
        b"\x86\xdd\x60\x00",
        UDP6,
        0,
        b"",
        [0, 0],
        [17, 0, 0, 0x4000],
        PORTS,
        IPV6,
    ),
    // Traffic class 0xb9.
    (
        b"\x86\xdd\x6b\x90",
        UDP6,
        0,
        b"",
        [0, 0],
        [17, 0, 0, 0x40b9],
        PORTS,
        IPV6,
    ),
    (
        b"\x86\xdd\x60\x00",
        CUT_UDP6,
        0,
        b"",
        [0, 0],
        NO_IP,
        0,
        NO_IP,
    ),
    // VLAN 5 with VLAN 6 inside, and a third tag that is none.
    (
        b"\x81\0\0\x05\x81\0\0\x06\x08\0",
        UDP,
        0,
        b"",
        [0x8100_0000_0005, 0x0800_0000_0006],
        IPV4,
        PORTS,
        NO_IP,
    ),
    (
        b"\x81\0\0\x05\x81\0\0\x06\x81\0\0\x07\x08\0",
        UDP,
        0,
        b"",
        [0x8100_0000_0005, 0x8100_0000_0006],
        NO_IP,
        0,
        NO_IP,
    ),
    // Priority 7, VLAN 0x123, and the bit between them.
    (
        b"\x88\xa8\xf1\x23\x08\x00",
        UDP,
        0,
        b"",
        [0x0800_0007_0123, 0],
        IPV4,
        PORTS,
        NO_IP,
    ),
    (b"\x08\x06", UDP, 0, b"", [0, 0], NO_IP, 0, NO_IP),
    // The first fragment, a later one, and a packet that only must not be cut.
    (
        b"\x08\x00\x45\0\0\x2e\0\0\x20\0",
        UDP,
        8,
        b"",
        [0, 0],
        IPV4,
        0,
        NO_IP,
    ),
    (
        b"\x08\x00\x45\0\0\x2e\0\0\0\x01",
        UDP,
        8,
        b"",
        [0, 0],
        IPV4,
        0,
        NO_IP,
    ),
    (
        b"\x08\x00\x45\0\0\x2e\0\0\x40\0",
        UDP,
        8,
        b"",
        [0, 0],
        IPV4,
        PORTS,
        NO_IP,
    ),
    // Headers of 16, 24 and 60 bytes; the last without and with the ports.
    (b"\x08\x00\x44", UDP, 1, b"", [0, 0], NO_IP, 0, NO_IP),
    (b"\x08\x00\x46", UDP, 1, b"", [0, 0], IPV4, 0x001a, NO_IP),
    (b"\x08\x00\x4f", UDP, 1, b"", [0, 0], IPV4, 0, NO_IP),
    (b"\x08\x00\x4f", UDP, 1, BEHIND, [0, 0], IPV4, PORTS, NO_IP),
    // SCTP, with type of service 0x2a and time to live 1: its ports are not looked for.
    (
        b"\x08\x00\x45\x2a\0\0\0\0\0\0\x01\x84",
        UDP,
        10,
        b"",
        [0, 0],
        [0x84, 0x0a0000fe, 0x0a000001, 0x012a],
        0,
        NO_IP,
    ),
];

fn bytes_of(alloc: Global, case: &FrameCase<'_>) -> Result<Vec<u8>, AllocError> {
    let (link, packet, from, more, ..) = *case;
    let part = packet.get(from..).unwrap_or_default();
    joined(alloc, [ADDRESSES, link, part, more])
}

fn words_of(case: &FrameCase<'_>) -> [u64; 14] {
    let (.., tags, ip, ports, ipv6) = *case;
    [
        0x0200_0000_0001,
        0x0200_0000_0002,
        tags[0],
        ip[0],
        ip[1],
        ip[2],
        ports,
        0,
        tags[1],
        ip[3],
        ipv6[0],
        ipv6[1],
        ipv6[2],
        ipv6[3],
    ]
}

#[test]
fn fields_of_frames(rt: HostRuntime) -> Result<(), AllocError> {
    for case in FRAMES {
        let bytes = bytes_of(rt.alloc(), case)?;
        same(&rt, key_of(&bytes).words, words_of(case));
    }
    Ok(())
}

// The words of the source's address, of IP and of the ports with the flags. Fields come with the last byte of
// their header: 14 bytes for the addresses, 34 for IPv4, 38 for the ports, 48 for the flags.
fn cut_words(length: usize) -> [u64; 6] {
    let from = |least: usize, word: u64| if length < least { 0 } else { word };
    [
        from(14, 0x0200_0000_0001),
        from(34, 6),
        from(34, 0x0a00_0001),
        from(34, 0x4000),
        from(38, 0x0035_1388),
        from(48, 0x012),
    ]
}

fn words_when_cut(bytes: &[u8]) -> [u64; 6] {
    let words = key_of(bytes).words;
    [words[0], words[3], words[5], words[9], words[6], words[7]]
}

#[test]
fn cut_frames(rt: HostRuntime) -> Result<(), AllocError> {
    let bytes = joined(rt.alloc(), [ADDRESSES, b"\x08\x00", TCP, b""])?;
    for (length, _) in bytes.iter().enumerate() {
        same(&rt, words_when_cut(&bytes[..length]), cut_words(length));
    }
    Ok(())
}
