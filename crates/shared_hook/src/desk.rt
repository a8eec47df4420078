//! The desk.

use crate::counts::PoolCounts;
use desk_actions::ledgers::Ledger;
use desk_needs::Pool;
use desk_parts::Parts;
use filter_lists::Lists;
use hook_reader::{HookReader, HookReceipt};
use hook_store_law::HookStore;
use pin_store::Scan;
use std::alloc::Global;
use std::marker::Model;
use tc_base::Point;

/// The one that edits a hook: its lists, and the writer of its store.
///
/// Contracts see the writer's seat, the lists, and of each pool how many are free and how many left.
#[derive(Drop)]
pub struct Desk {
    pub(crate) parts: Parts,
    pub(crate) alloc: Global,
}

impl Model for Desk {
    ghost use Rattle.shared_hook.specs.Begun.{IsCounted};
    ghost use Rattle.shared_hook.specs.Views.{DeskView, view_of};

    ghost Value = { DeskView };

    ghost view = { λ d. view_of d.parts };

    ghost invariant = { λ d. IsCounted d.parts };
}

impl Desk {
    ghost use Rattle.std.specs.Prelude.{◌≡◌, ◌⊎◌, ◌+◌, ◌≤◌, ◌<◌, ◌^◌, ◌++◌, ℕ, List, [], length};
    ghost use Rattle.std.specs.Prelude.{slice_get, Some, None};
    ghost use mathlib.Core.List.{IsPrefix};
    ghost use Rattle.store_history.specs.declared.history.Commit.{Commit};
    ghost use Rattle.pin_store.specs.declared.scan.Scan.TheVariants.{Quiet};
    ghost use Rattle.pin_store.specs.Sheets.{base_of};
    ghost use Rattle.pin_store.specs.Calls.{seen_by, sheet_of, IsSeatOf};
    ghost use Rattle.pin_store.specs.Found.{FoundIn};
    ghost use Rattle.filter_state.specs.declared.edit.Edit.{Edit};
    ghost use Rattle.filter_lists.specs.Spells.{Spells};
    ghost use Rattle.hook_store_law.specs.Stated.{hook_meaning};
    ghost use Rattle.hook_store_law.specs.Blocks.{hook_codec};
    ghost use Rattle.hook_law.specs.Keeping.{Keeps, IsAtRest};
    ghost use Rattle.hook_store_law.specs.OfEdits.Premises.{now};
    ghost use Rattle.desk_needs.specs.declared.pool.Pool.{Pool};
    ghost use Rattle.desk_needs.specs.Live.{live_of, size_of_pool};
    ghost use Rattle.desk_pools.specs.OfTidying.Tidied.{IsTwiceIn};
    ghost use Rattle.shared_hook.specs.Views.{count_of, journal};

    /// The lists: the state at the end of the journal. The commits keep the law of a hook, and each mask has
    /// the number of buckets for its filters.
    pub fn lists(&self) -> &Lists
        ensures lists { result.now ≡ self.now.lists }
        ensures spells { Spells self.now.lists (now (seen_by self.now.place)) }
        ensures lawful { Keeps hook_meaning hook_codec (seen_by self.now.place)
            (base_of (sheet_of self.now.place)) }
        ensures rest { IsAtRest hook_meaning hook_codec (seen_by self.now.place) }
    {
        &self.parts.ledger.lists
    }

    /// How many edits were accepted so far.
    pub fn journal_len(&self) -> Point
        ensures { result ≡ length (journal self.now) }
    {
        self.parts.ledger.point
    }

    /// How many epochs began so far.
    pub fn epochs(&self) -> u64
        ensures { result ≡ (sheet_of self.now.place).epoch }
    {
        self.parts.ledger.writer.epoch()
    }

    /// What of each pool is free.
    pub fn all_free(&self) -> PoolCounts
        ensures { result ≡ self.now.free }
    {
        PoolCounts::free_in(&self.parts.pools)
    }

    /// How many of a pool are free.
    pub fn free(&self, pool: Pool) -> u32
        ensures { result ≡ count_of self.now.free pool }
    {
        self.all_free().of(pool)
    }

    /// How many of a pool left and aren't free yet. With those that are free and those that the state at the
    /// journal's end has in use they are all that there are.
    pub fn retired(&self, pool: Pool) -> u32
        ensures left { result ≡ count_of self.now.left pool }
        ensures all { count_of self.now.free pool + result + live_of (now (seen_by self.now.place)) pool
            ≡ size_of_pool pool }
    {
        PoolCounts::left_in(&self.parts.pools).of(pool)
    }

    /// A receipt that has seen all commits, at the point of the journal's end.
    pub fn receipt(&mut self, store: &HookStore) -> HookReceipt
        requires store { IsSeatOf store.now self.old.place }
        ensures store { IsSeatOf store.now self.new.place }
        ensures same { (self.new.place.me ≡ self.old.place.me)
            × (self.new ≡ record self.old { place = self.new.place }) }
        ensures receipt { IsSeatOf store.now result.receipt.place
            × (seen_by result.receipt.place ≡ seen_by self.old.place)
            × (result.point ≡ length (journal self.old)) }
    {
        let Ledger { writer, point, .. } = &mut self.parts.ledger;
        HookReceipt {
            receipt: writer.receipt(store),
            point: *point,
        }
    }

    /// Learns that what a reader has seen is a beginning of all commits. Nothing else changes.
    pub fn meet(&mut self, store: &HookStore, reader: &mut HookReader)
        requires store { IsSeatOf store.now self.old.place × IsSeatOf store.now reader.old.place }
        ensures store { IsSeatOf store.now self.new.place × IsSeatOf store.now reader.new.place }
        ensures same { (seen_by self.new.place ≡ seen_by self.old.place)
            × (sheet_of self.new.place ≡ sheet_of self.old.place)
            × (self.new ≡ record self.old { place = self.new.place }) }
        ensures reader { (reader.new.place.me ≡ reader.old.place.me)
            × (reader.new ≡ record reader.old { place = reader.new.place }) }
        ensures met { IsPrefix (seen_by reader.old.place) (seen_by self.old.place) }
    {
        reader.meet(store, &mut self.parts.ledger.writer);
    }

    /// Begins an epoch and looks at each reader twice. Where all that were inside before have left, it
    /// empties the roots of what left by commits without a number, begins a second epoch and looks again.
    /// Where it answers `Quiet` all that left is free. Else it names the first reader that is in the way,
    /// with its pin, which was loaded twice in this call and was the same.
    pub fn tidy(&mut self, store: &HookStore) -> Scan
        requires store { IsSeatOf store.now self.old.place }
        requires few { (sheet_of self.old.place).epoch < 2 ^ 61 }
        ensures store { IsSeatOf store.now self.new.place }
        ensures lists { (self.new.lists ≡ self.old.lists) × (journal self.new ≡ journal self.old) }
        ensures seen { (cs : List (Commit Edit)) × (seen_by self.new.place ≡ seen_by self.old.place ++ cs)
            × ((at : ℕ) (c : Commit Edit) → slice_get cs at ≡ Some c
            → (c.edit ≡ None) × (c.named.chain ≡ [])) }
        ensures free { (pool : Pool) → count_of self.old.free pool ≤ count_of self.new.free pool }
        ensures quiet { result ≡ Quiet → (pool : Pool) → count_of self.new.left pool ≡ 0 }
        ensures twice { IsTwiceIn (sheet_of self.new.place).notes result }
        ensures found { FoundIn (sheet_of self.new.place).notes result }
        ensures epochs { ((sheet_of self.new.place).epoch ≡ (sheet_of self.old.place).epoch + 1)
            ⊎ ((sheet_of self.new.place).epoch ≡ (sheet_of self.old.place).epoch + 2) }
    {
        self.parts.tidy(store)
    }
}
