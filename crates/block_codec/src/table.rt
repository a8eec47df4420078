//! Tables.
ghost use Rattle.std.specs.Prelude.{◌≡◌, ◌≤◌, ◌↔◌, IsTrue, length, map, All};
ghost use Rattle.block_codec.specs.Blocks.{IsTheOnly};
ghost use Rattle.block_codec.specs.Names.{mask_in, IsMaskName};
ghost use Rattle.block_codec.specs.Tables.{protocol_number, FitsProtocol, IsStorableTable, IsTableBlock};
ghost use Rattle.block_codec.specs.Reading.{HasTable, protocol_in};

use crate::block::{LINK, Named, both_halves, high_half, is_blank_from, low_half, number_before};
use crate::mask_slots::MaskSlots;
use crate::names::{is_mask, mask_in, mask_word};
use act_kinds::CHAIN_MAX;
use tc_base::Proto;

// The kind of block.
const TABLE: u64 = 3;

// Where the masks begin.
const MASKS: usize = 4;

// The masks of a table at most.
const MASKS_MAX: u64 = 16;

// The number of all protocols, above those of each one.
const ALL: u32 = 65_536;

/// A table of a hook, with its masks in the order in which they are tried.
#[derive(Drop)]
pub struct StoredTable {
    pub serial: u32,
    pub chain: u32,
    pub pref: u32,
    pub protocol: Proto,
    pub masks: MaskSlots,
}

// The number of a protocol. A caller that has it behind a reference learns that it fits.
fn protocol_number(protocol: Proto) -> u32
    ensures number { result ≡ protocol_number protocol }
    ensures fits { FitsProtocol protocol }
    ensures most { result ≤ 65536 }
{
    match protocol {
        Proto::All => ALL,
        Proto::Ether(number) => u32::from(number),
    }
}

// The protocol with that number.
fn protocol_in(number: u32) -> Proto
    requires { number ≤ 65536 }
    ensures { result ≡ protocol_in number }
{
    if number == ALL {
        Proto::All
    } else {
        Proto::Ether(number as u16)
    }
}

/// Writes a table whose chain is 268,435,455 at most and whose pref is from 1 to 65,535, and whose masks have
/// slots below `MASK_SLOTS`.
pub fn write_table(stored: &StoredTable, link: Option<u32>, words: &mut [u64; 40])
    requires { IsStorableTable stored.now }
    ensures { IsTableBlock words.new (stored.now, link) }
{
    let masks = stored.masks.items();
    let mut named = Named::of_kind(TABLE);
    named.push(both_halves(stored.serial, stored.pref));
    named.push(both_halves(stored.chain, protocol_number(stored.protocol)));
    named.push(masks.len() as u64);
    for mask in masks {
        named.push(mask_word(*mask));
    }
    named.write(link, words);
}

// Every word names a mask within the limits.
fn are_masks(words: &[u64]) -> bool
    ensures { IsTrue result ↔ All (λ word. IsMaskName (mask_in word)) words.now }
{
    words.iter().all(|word| is_mask(mask_in(*word)))
}

// The words are those of a table.
fn has_table(words: &[u64; 40]) -> bool
    ensures { IsTrue result ↔ HasTable words.now }
{
    words[0] == TABLE
        && 1 <= high_half(words[1])
        && high_half(words[1]) <= 65_535
        && low_half(words[2]) <= CHAIN_MAX
        && high_half(words[2]) <= ALL
        && words[3] <= MASKS_MAX
        && are_masks(&words[MASKS..MASKS + words[3] as usize])
        && is_blank_from(words, MASKS + words[3] as usize)
        && words[LINK] <= 1 << 32
}

// The masks that the words name.
fn masks_in(words: &[u64]) -> MaskSlots
    requires { length words.now ≤ 16 }
    ensures { result ≡ map mask_in words.now }
{
    let mut masks = MaskSlots::new();
    for word in words {
        masks.push(mask_in(*word));
    }
    masks
}

/// The table and the link whose words these are, and `None` exactly where they are those of no table.
pub fn read_table(words: &[u64; 40]) -> Option<(StoredTable, Option<u32>)>
    ensures { IsTheOnly (IsTableBlock words.now) result }
{
    if !has_table(words) {
        return None;
    }
    let names = &words[MASKS..MASKS + words[3] as usize];
    let stored = StoredTable {
        serial: low_half(words[1]),
        chain: low_half(words[2]),
        pref: high_half(words[1]),
        protocol: protocol_in(high_half(words[2])),
        masks: masks_in(names),
    };
    Some((stored, number_before(words[LINK])))
}
