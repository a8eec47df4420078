//! Putting a place into an index where room was reserved, which no want of memory can refuse.
ghost use Rattle.std.specs.Prelude.{◌≡◌, ◌<◌, ◌≤◌, ◌+◌, Some, None};
ghost use Rattle.std.specs.HashMap.{Updates, get, hash_map_len, spare};

use std::collections::HashMap;
use std::hash::Hash;

/// Puts the place of a new key into an index that has room for one more.
pub(crate) fn put_place<K: Eq + Hash + Drop>(index: &mut HashMap<K, usize>, key: K, place: usize)
    requires room { 0 < spare index.old }
    requires new { get K.eq index.old key ≡ None }
    ensures updates { Updates K.eq index.old index.new key (Some place) }
    ensures len { hash_map_len index.new ≡ hash_map_len index.old + 1 }
    ensures spare { spare index.old ≤ spare index.new + 1 }
{
    match index.insert(key, place) {
        Ok(_) => {}
        Err(_) => unreachable!(),
    }
}
