//! The blocks of a place, filled with tables.
ghost use Rattle.block_codec.specs.declared.places.TheConstants.{BLOCK_WORDS, TABLES};
ghost use Rattle.std.specs.Prelude.{◌≡◌, ◌≢◌, ℕ, ◌+◌, ◌<◌, ◌≤◌, ◌^◌, length, take, slice_get, Some, All};
ghost use Rattle.std.specs.List.{range_with_len};
ghost use Rattle.pin_store.specs.Layout.{block_words};
ghost use Rattle.pin_store.specs.Sheets.{base_of, IsSameButCells};
ghost use Rattle.pin_store.specs.Calls.{seen_by, sheet_of, IsSeatOf, IsUnnamed};
ghost use Rattle.block_codec.specs.declared.table.StoredTable.{StoredTable};
ghost use Rattle.block_codec.specs.Blocks.{block};
ghost use Rattle.block_codec.specs.Tables.{table_words, IsStorableTable};
ghost use Rattle.miniq_pair.specs.Pairs.{first_block_of, link_at};

use crate::reading::hook_number;
use block_codec::places::{HEAD_BLOCKS, TABLES};
use block_codec::{StoredTable, write_table};
use pin_store::{Store, Writer};
use store_history::Law;
use tc_base::Hook;

// The block to which the table at a place among so many is linked.
fn link_from(first: u32, place: u32, count: u32) -> Option<u32>
    requires small { first + count < 2 ^ 32 }
    requires within { place < count }
    ensures { result ≡ link_at first place count }
{
    if place + 1 == count {
        None
    } else {
        Some(first + place + 1)
    }
}

// Fills blocks from one on with tables, each linked to the next.
pub(crate) fn fill_tables<L: Law>(
    writer: &mut Writer<L>,
    store: &Store<L>,
    first: u32,
    tables: &[StoredTable],
)
    requires store { IsSeatOf store.now writer.old.place }
    requires shape { (store.now.shape.words ≡ BLOCK_WORDS)
        × (first + length tables.now ≤ store.now.shape.blocks) }
    requires few { length tables.now ≤ TABLES }
    requires storable { All IsStorableTable tables.now }
    requires free { (place : ℕ) → place < length tables.now
        → IsUnnamed (base_of (sheet_of writer.old.place)) (seen_by writer.old.place) (first + place) }
    ensures store { IsSeatOf store.now writer.new.place }
    ensures seen { seen_by writer.new.place ≡ seen_by writer.old.place }
    ensures sheet { IsSameButCells (sheet_of writer.old.place) (sheet_of writer.new.place) }
    ensures words { (place : ℕ) (table : StoredTable) → slice_get tables.now place ≡ Some table
        → block_words store.now.shape (sheet_of writer.new.place).cells (first + place)
        ≡ block (table_words table) (link_at first place (length tables.now)) }
    ensures few { (place : ℕ) (table : StoredTable) → slice_get tables.now place ≡ Some table
        → length table.masks ≤ 16 }
    ensures others { (other : ℕ) → ((place : ℕ) → place < length tables.now → other ≢ first + place)
        → other < store.now.shape.blocks
        → block_words store.now.shape (sheet_of writer.new.place).cells other
        ≡ block_words store.now.shape (sheet_of writer.old.place).cells other }
{
    let count = tables.len() as u32;
    for (place, table) in tables.iter().enumerate() {
        let link = link_from(first, place as u32, count);
        let mut words = [0; 40];
        write_table(table, link, &mut words);
        writer.fill(store, first + place as u32, &words);
    }
}

// So many numbers of blocks, one after the other, in the front of the list.
pub(crate) fn numbers_from(first: u32, count: usize) -> [u32; TABLES as usize]
    requires small { first + TABLES < 2 ^ 32 }
    requires few { count ≤ TABLES }
    ensures { take count result ≡ range_with_len first count }
{
    let mut numbers = [0; TABLES as usize];
    for place in 0..count {
        numbers[place] = first + place as u32;
    }
    numbers
}

// The first block of a place of a hook.
pub(crate) fn first_block_of(hook: Hook, place: u32) -> u32
    requires { place ≤ 1 }
    ensures { result ≡ first_block_of hook place }
{
    HEAD_BLOCKS + TABLES * (2 * hook_number(hook) + place)
}
