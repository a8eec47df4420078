//! Whether tables are those that are kept.
ghost use Rattle.std.specs.Prelude.{◌≡◌, ◌+◌, ◌*◌, true};

use visit_room::{MaskName, TableHead};

// Two numbers in one word, so that both are compared at once.
fn both(low: u32, high: u32) -> u64
    ensures { result ≡ low + high * 4294967296 }
{
    low as u64 + high as u64 * (1 << 32)
}

// Whether the names are the same.
fn is_same_mask(name: &MaskName, other: &MaskName) -> bool
    ensures { result ≡ true → name.now ≡ other.now }
{
    both(name.serial, name.slot) == both(other.serial, other.slot)
}

// The same of each name of a table.
fn are_same_masks(names: &[MaskName], others: &[MaskName]) -> bool
    ensures { result ≡ true → names.now ≡ others.now }
{
    if names.len() != others.len() {
        return false;
    }
    for (name, other) in names.iter().zip(others.iter()) {
        if !is_same_mask(name, other) {
            return false;
        }
    }
    true
}

// Whether the tables are the same.
fn is_same_head(head: &TableHead, other: &TableHead) -> bool
    ensures { result ≡ true → head.now ≡ other.now }
{
    if both(head.serial, head.chain) != both(other.serial, other.chain) || head.pref != other.pref {
        return false;
    }
    head.protocol == other.protocol && are_same_masks(head.masks.as_slice(), other.masks.as_slice())
}

/// Whether the tables of both lists are the same, in the same order.
pub(crate) fn are_same_heads(heads: &[TableHead], others: &[TableHead]) -> bool
    ensures { result ≡ true → heads.now ≡ others.now }
{
    if heads.len() != others.len() {
        return false;
    }
    for (head, other) in heads.iter().zip(others.iter()) {
        if !is_same_head(head, other) {
            return false;
        }
    }
    true
}
