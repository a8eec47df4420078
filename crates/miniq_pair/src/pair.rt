//! The two places of a hook's tables, and the writer's change from one to the other.
ghost use Rattle.std.specs.Prelude.{◌≡◌, ◌≤◌};

use crate::filling::{fill_tables, first_block_of, numbers_from};
use crate::reading::hook_number;
use crate::tables::StoredTables;
use pin_store::{Store, Writer};
use store_history::places::HEAD_ROOTS;
use store_history::{EditName, Law};
use tc_base::{Hook, Point};

/// The two places of a hook's tables in the store, each of 256 blocks, of which one is active: the hook's
/// root names its tables. The writer keeps one for each hook.
#[derive(Clone, Copy, Debug)]
pub struct HeadPair {
    hook: Hook,
    active: u32,
    pub ghost two: { active ≤ 1 },
}

impl HeadPair {
    ghost use Rattle.block_codec.specs.declared.places.TheConstants.{BLOCKS, BLOCK_WORDS, TABLES};
    ghost use Rattle.std.specs.Prelude.{◌≢◌, ℕ, ◌+◌, ◌<◌, ◌∷◌, ◌++◌, [], length, All};
    ghost use Rattle.pin_store.specs.Layout.{block_words};
    ghost use Rattle.pin_store.specs.Sheets.{base_of, IsSameButCells};
    ghost use Rattle.pin_store.specs.Calls.{seen_by, sheet_of, IsSeatOf, IsUnnamed};
    ghost use Rattle.block_codec.specs.Tables.{IsStorableTable};
    ghost use Rattle.miniq_pair.specs.Pairs.{first_block_of, other_place, swap_commit};

    /// The places of a hook that has no tables: place 0 is active.
    pub fn new(hook: Hook) -> HeadPair
        ensures { (result.hook ≡ hook) × (result.active ≡ 0) }
    {
        HeadPair { hook, active: 0 }
    }

    /// The active place, 0 or 1.
    pub fn active(&self) -> u32
        ensures { result ≡ self.now.active }
    {
        self.active
    }

    /// Puts tables into the place that isn't active, makes the one commit that names them, and makes that
    /// place the active one. The commit carries the edit that `E` names, under its number.
    ///
    /// No block of the idle place may be in a chain that was named since the base, and the law must hold of
    /// all commits with this one.
    pub fn swap<L: Law, E: EditName<L::Entry>>(
        &mut self,
        writer: &mut Writer<L>,
        store: &Store<L>,
        tables: &StoredTables,
        edit: Point,
    )
        requires store { IsSeatOf store.now writer.old.place }
        requires shape { (store.now.shape.words ≡ BLOCK_WORDS) × (BLOCKS ≤ store.now.shape.blocks)
            × (3 ≤ store.now.shape.roots) }
        requires few { length tables.now ≤ TABLES }
        requires storable { All IsStorableTable tables.now }
        requires idle { (at : ℕ) → at < TABLES
            → IsUnnamed (base_of (sheet_of writer.old.place)) (seen_by writer.old.place)
            (first_block_of self.old.hook (other_place self.old.active) + at) }
        requires lawful { L.keeps (seen_by writer.old.place
            ++ swap_commit self.old.hook (other_place self.old.active) tables.now edit E.edit ∷ [])
            (base_of (sheet_of writer.old.place)) }
        ensures store { IsSeatOf store.now writer.new.place }
        ensures seen { seen_by writer.new.place ≡ seen_by writer.old.place
            ++ swap_commit self.old.hook (other_place self.old.active) tables.now edit E.edit ∷ [] }
        ensures sheet { IsSameButCells (sheet_of writer.old.place) (sheet_of writer.new.place) }
        ensures others { (other : ℕ)
            → ((at : ℕ) → at < TABLES
            → other ≢ first_block_of self.old.hook (other_place self.old.active) + at)
            → other < store.now.shape.blocks
            → block_words store.now.shape (sheet_of writer.new.place).cells other
            ≡ block_words store.now.shape (sheet_of writer.old.place).cells other }
        ensures active { self.new.active ≡ other_place self.old.active }
        ensures hook { self.new.hook ≡ self.old.hook }
    {
        let idle = 1 - self.active;
        let first = first_block_of(self.hook, idle);
        let count = tables.as_slice().len();
        fill_tables(writer, store, first, tables.as_slice());
        let chain = numbers_from(first, count);
        let root = HEAD_ROOTS + hook_number(self.hook);
        writer.commit::<E>(store, root, &chain[..count], edit, Some(edit));
        self.active = idle;
    }
}
