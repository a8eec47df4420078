//! Hashes of keys, and sizes of tables.
use crate::same::same;
use flow_fields::Key;
use flow_mask::{hash, size_for};

// Words with their hashes. These were computed by hand in Python's numbers, which have no greatest one:
// h = 0x9E3779B97F4A7C15, and for each word w in order h = (h ^ w) * 0xFF51AFD7ED558CCD % 2**64; h ^= h >> 32.
const HASHES: &[([u64; 14], u64)] = &[
    ([0; 14], 0x6e9c_8ecb_0ab7_2960),
    (
        [0, 0, 0, 0, 0, 0x0a00_0001, 0, 0, 0, 0, 0, 0, 0, 0],
        0xd47b_94d9_e94e_709d,
    ),
    (
        [1, 2, 3, 4, 5, 6, 7, 8, 9, 10, 11, 12, 13, 14],
        0x1845_5c1d_82d5_6f2e,
    ),
];

#[test]
fn hashes_of_keys(rt: HostRuntime) {
    for (words, hashed) in HASHES {
        same(&rt, hash(&Key { words: *words }), *hashed);
    }
}

// Numbers of filters with the size of their table. Three quarters of 16 are 12, and three quarters of 512 are
// 384.
const SIZES: &[(u32, u32)] = &[
    (0, 16),
    (12, 16),
    (13, 32),
    (384, 512),
    (385, 1024),
    (4096, 1024),
];

#[test]
fn sizes_of_tables(rt: HostRuntime) {
    for (filters, size) in SIZES {
        same(&rt, size_for(*filters), *size);
    }
}
