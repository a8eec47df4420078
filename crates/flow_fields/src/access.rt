//! Reads and writes the fields of a key.
ghost use Rattle.std.specs.Prelude.{◌≡◌, ◌+◌, ◌^◌, ◌<◌, ◌≤◌, slice_index, slice_set};
ghost use Rattle.flow_fields.specs.Table.{field_at};
ghost use Rattle.flow_fields.specs.Values.{value_in, values_of, bits_of, with_bits, with_value, IsTidy};
ghost use Rattle.flow_fields.specs.Values.{SameStrays};

use crate::key::Key;
use crate::table::row;

/// The greatest number of that width.
#[inline]
fn ones(width: u32) -> u64
    requires some { 1 ≤ width }
    requires fits { width ≤ 64 }
    ensures { result + 1 ≡ 2 ^ width }
{
    if width == 64 {
        u64::MAX
    } else {
        (1 << width) - 1
    }
}

/// Some bits of a number.
#[inline]
fn bits(number: u64, shift: u32, width: u32) -> u64
    requires some { 1 ≤ width }
    requires fits { shift + width ≤ 64 }
    ensures { result ≡ bits_of number shift width }
{
    (number >> shift) & ones(width)
}

/// The number with other bits there.
#[inline]
fn put_bits(number: u64, shift: u32, width: u32, value: u64) -> u64
    requires some { 1 ≤ width }
    requires fits { shift + width ≤ 64 }
    requires value { value < 2 ^ width }
    ensures { result ≡ with_bits number shift width value }
{
    number - (bits(number, shift, width) << shift) + (value << shift)
}

/// The value of a field, which is below 2 to the field's width.
#[inline]
pub fn get<const N: usize>(key: &Key<N>, field: u32) -> u64
    requires field { field < 20 }
    requires word { (field_at field).word < N }
    ensures value { result ≡ value_in (field_at field) key.now.words }
    ensures below { result < 2 ^ (field_at field).width }
{
    let row = row(field);
    bits(key.words[row.word as usize], row.shift, row.width)
}

/// Gives a field a value. Every other field, and every bit that no field has, stays as it was.
#[inline]
pub fn set<const N: usize>(key: &mut Key<N>, field: u32, value: u64)
    requires field { field < 20 }
    requires word { (field_at field).word < N }
    requires fits { value < 2 ^ (field_at field).width }
    ensures words { key.new.words ≡ with_value key.old.words field value }
    ensures values { values_of key.new.words ≡ slice_set (values_of key.old.words) field value }
    ensures strays { SameStrays key.old.words key.new.words }
    ensures tidy { IsTidy key.old.words → IsTidy key.new.words }
{
    let row = row(field);
    let word = row.word as usize;
    key.words[word] = put_bits(key.words[word], row.shift, row.width, value);
}
