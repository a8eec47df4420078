//! Keys that are made field by field, so that no bit without a field is set in them.
ghost use Rattle.std.specs.Prelude.{◌≡◌, ◌+◌, ◌^◌, ◌<◌, slice_index};
ghost use Rattle.flow_fields.specs.Table.{field_at};
ghost use Rattle.flow_fields.specs.Values.{values_of};
ghost use Rattle.trace_lines.specs.Fields.{words_with, has_address, is_told, whole_at, whole_masks};
ghost use Rattle.trace_lines.specs.Fields.{key_under};

use flow_fields::{Key, field, get, row, set};
use flow_mask::masked;

/// The value of a field.
#[tactic(auto, using(crate::proofs::KeyWords::word_below))]
pub(crate) fn value(key: &Key<14>, field: u32) -> u64
    requires { field < 20 }
    ensures value { result ≡ slice_index (values_of key.now.words) field }
    ensures below { result < 2 ^ (field_at field).width }
{
    get(key, field)
}

/// The fields of a frame under those of a mask.
pub(crate) fn key_under(frame: &Key<14>, mask: &Key<14>) -> Key<14>
    ensures { result.words ≡ key_under (values_of frame.now.words) mask.now.words }
{
    with_fields_of(&masked(frame, mask))
}

// The fields of a key alone.
#[tactic(auto, using(crate::proofs::KeyWords::word_below))]
fn with_fields_of(from: &Key<14>) -> Key<14>
    ensures { result.words ≡ words_with (values_of from.now.words) }
{
    let mut to = Key::new();
    for field in 0..20 {
        set(&mut to, field, value(from, field));
    }
    to
}

/// The mask that is whole in each field of a frame whose value isn't 0, and in both halves of an IPv6 address
/// where one of them isn't.
#[tactic(auto, using(crate::proofs::KeyWords::word_below))]
pub(crate) fn whole_mask(frame: &Key<14>) -> Key<14>
    ensures { result.words ≡ words_with (whole_masks (values_of frame.now.words)) }
{
    let mut mask = Key::new();
    for field in 0..20 {
        set(&mut mask, field, whole(frame, field));
    }
    mask
}

// The mask of one field.
fn whole(frame: &Key<14>, field: u32) -> u64
    requires { field < 20 }
    ensures mask { result ≡ whole_at (values_of frame.now.words) field }
    ensures fits { result < 2 ^ (field_at field).width }
{
    if is_told(frame, field) {
        ones(field)
    } else {
        0
    }
}

// Whether a field isn't 0, or is half of an IPv6 address that isn't.
fn is_told(frame: &Key<14>, field: u32) -> bool
    requires { field < 20 }
    ensures { result ≡ is_told (values_of frame.now.words) field }
{
    match field {
        field::SRC_IP6_HIGH | field::SRC_IP6_LOW => has_address(frame, field::SRC_IP6_HIGH),
        field::DST_IP6_HIGH | field::DST_IP6_LOW => has_address(frame, field::DST_IP6_HIGH),
        _ => value(frame, field) != 0,
    }
}

// Whether the IPv6 address whose high half has that number isn't 0.
fn has_address(frame: &Key<14>, high: u32) -> bool
    requires { high < 19 }
    ensures { result ≡ has_address (values_of frame.now.words) high }
{
    value(frame, high) != 0 || value(frame, high + 1) != 0
}

// The greatest value of a field.
fn ones(field: u32) -> u64
    requires { field < 20 }
    ensures { result + 1 ≡ 2 ^ (field_at field).width }
{
    let width = row(field).width;
    if width == 64 {
        u64::MAX
    } else {
        (1 << width) - 1
    }
}
