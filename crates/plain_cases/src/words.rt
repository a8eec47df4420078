//! Words, lines, numbers and addresses.
use crate::same::same;
use tc_base::NoMemory;
use tc_words::{
    Ipv6Word, first_word, is_text, lines, read_decimal, read_hex, read_ipv4, read_ipv6, read_mac,
    read_number,
};

// Lines with their words.
const WORDS: &[(&[u8], &[&str])] = &[
    (b"  a\tb #c d", &["a", "b"]),
    (b"x#y", &["x"]),
    (b" \t", &[]),
    (b"a\x0bb c\r", &["a\x0bb", "c\r"]),
    (b"drop\r# c", &["drop\r"]),
];

// Files with their lines.
const FILES: &[(&[u8], &[&[u8]])] = &[
    (b"a\r\nb\n", &[b"a", b"b"]),
    (b"\r", &[b""]),
    (b"", &[]),
    (b"a\n\nb", &[b"a", b"", b"b"]),
    (b"\n", &[b""]),
    (b"a\rb\r\r\n", &[b"a\rb\r"]),
];

// Whether the words of a line are these texts, one by one.
fn has_texts(line: &[u8], texts: &[&str]) -> bool {
    let mut rest = line;
    for text in texts {
        match first_word(rest) {
            Some((word, behind)) if is_text(word, text) => rest = behind,
            _ => return false,
        }
    }
    first_word(rest).is_none()
}

#[test]
fn words_and_lines(rt: HostRuntime) -> Result<(), NoMemory> {
    for (line, texts) in WORDS {
        assert!(rt; has_texts(line, texts));
    }
    for (file, texts) in FILES {
        let found = lines(rt.alloc(), file)?;
        same(&rt, found.as_slice(), *texts);
    }
    Ok(())
}

// Words with the decimals that they are, up to 65,535.
const DECIMALS: &[(&[u8], Option<u32>)] = &[
    (b"0", Some(0)),
    (b"65535", Some(65535)),
    (b"65536", None),
    (b"007", None),
    (b"", None),
    (b"12a", None),
];

// Words with their address and mask.
const PREFIXES: &[(&[u8], (u32, u32))] = &[
    (b"10.0.0.1", (0x0a000001, 0xffffffff)),
    (b"10.1.2.3/8", (0x0a000000, 0xff000000)),
    (b"1.2.3.4/0", (0, 0)),
    (b"255.255.255.255/32", (0xffffffff, 0xffffffff)),
];

const NO_PREFIXES: &[&[u8]] = &[
    b"010.0.0.1",
    b"10.0.0.1/08",
    b"10.0.0.1/33",
    b"1.2.3",
    b"1.2.3.4.5",
    b"1.2.3.256",
    b"1.2.3.4/",
    b"/8",
    b"1..2.3",
    b"10.0.0.1/0x18",
    b"1.2.3.4/8/8",
];

#[test]
fn numbers_and_addresses(rt: HostRuntime) {
    for (word, number) in DECIMALS {
        same(&rt, read_decimal(word, 65535), *number);
    }
    for (word, prefix) in PREFIXES {
        same(&rt, read_ipv4(word), Some(*prefix));
    }
    for word in NO_PREFIXES {
        same(&rt, read_ipv4(word), None);
    }
}

// Words with the numbers that they are in either form, up to one below the greatest of 32 bits.
const NUMBERS: &[(&[u8], Option<u32>)] = &[
    (b"0", Some(0)),
    (b"10", Some(10)),
    (b"0x1f", Some(31)),
    (b"0X1F", Some(31)),
    (b"0x0", Some(0)),
    (b"0xfffffffe", Some(4_294_967_294)),
    (b"0xffffffff", None),
    (b"01", None),
    (b"0x", None),
    (b"0x000000001", None),
    (b"1x", None),
    (b"+1", None),
    (b"0b1", None),
];

// Words with the numbers of at most two digits that they are.
const HEXADECIMALS: &[(&[u8], Option<u64>)] = &[
    (b"17", Some(23)),
    (b"0x17", Some(23)),
    (b"a", Some(10)),
    (b"FF", Some(255)),
    (b"0X17", None),
    (b"100", None),
    (b"", None),
    (b"0x", None),
    (b"1g", None),
];

#[test]
fn numbers_in_either_form(rt: HostRuntime) {
    for (word, number) in NUMBERS {
        same(&rt, read_number(word, 4_294_967_294), *number);
    }
    for (word, number) in HEXADECIMALS {
        same(&rt, read_hex(word, 2), *number);
    }
}

// Words with their address and mask.
const CARDS: &[(&[u8], (u64, u64))] = &[
    (b"02:00:00:00:00:01", (0x020000000001, 0xffffffffffff)),
    (b"01:00:5e:00:00:00/25", (0x01005e000000, 0xffffff800000)),
    (b"01:00:5e:7f:00:01/25", (0x01005e000000, 0xffffff800000)),
    (
        b"02:11:22:33:44:55/ff:ff:ff:00:00:00",
        (0x021122000000, 0xffffff000000),
    ),
    (b"02:00:00:00:00:01/48", (0x020000000001, 0xffffffffffff)),
    (b"02:00:00:00:00:01/0", (0, 0)),
    (b"AB:cD:Ef:01:23:45", (0xabcdef012345, 0xffffffffffff)),
];

const NO_CARDS: &[&[u8]] = &[
    b"02:00:00:00:00",
    b"02:00:00:00:00:01:02",
    b"2:00:00:00:00:01",
    b"02:00:00:00:00:01/49",
    b"02:00:00:00:00:01/08",
    b"02:00:00:00:00:01/0x18",
    b"02:00:00:00:00:01/",
    b"02:00:00:00:00:01/8/8",
    b"02-00-00-00-00-01",
    b"",
];

#[test]
fn addresses_of_cards(rt: HostRuntime) {
    for (word, mac) in CARDS {
        same(&rt, read_mac(word), Some(*mac));
    }
    for word in NO_CARDS {
        same(&rt, read_mac(word), None);
    }
}

// Words with the halves of their address, and the length of the prefix.
const IPV6_PREFIXES: &[(&[u8], (u64, u64, u32))] = &[
    (b"2001:db8::1", (0x20010db800000000, 1, 128)),
    (b"::", (0, 0, 128)),
    (b"::1", (0, 1, 128)),
    (b"1::", (0x0001000000000000, 0, 128)),
    (
        b"1:2:3:4:5:6:7:8",
        (0x0001000200030004, 0x0005000600070008, 128),
    ),
    (
        b"1:2:3:4:5:6::8",
        (0x0001000200030004, 0x0005000600000008, 128),
    ),
    (b"2001:DB8:ffff::1/32", (0x20010db800000000, 0, 32)),
    (b"ffff::ffff/0", (0, 0, 0)),
    (b"::f:ffff:ffff:ffff/80", (0, 0x000f000000000000, 80)),
];

const NO_IPV6_PREFIXES: &[&[u8]] = &[
    b"1:2:3:4:5:6:7::8",
    b"1::2::3",
    b":::",
    b":1",
    b"1:",
    b"1:2:3:4:5:6:7:8:",
    b"12345::",
    b"1:2:3:4:5:6:7",
    b"1:2:3:4:5:6:7:8:9",
    b"::1.2.3.4",
    b"2001:db8::/129",
    b"2001:db8::/",
    b"2001:db8::/032",
    b"::/8/8",
    b"g::",
    b"/8",
    b"",
];

#[test]
fn ipv6_addresses(rt: HostRuntime) {
    for (word, (high, low, length)) in IPV6_PREFIXES {
        let read = Ipv6Word {
            high: *high,
            low: *low,
            length: *length,
        };
        same(&rt, read_ipv6(word), Some(read));
    }
    for word in NO_IPV6_PREFIXES {
        same(&rt, read_ipv6(word), None);
    }
}
