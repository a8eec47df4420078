//! The way along one chain.
ghost use Rattle.std.specs.Prelude.{◌≡◌, ℕ, ◌+◌, ◌<◌, length, slice_get, Some, true, false};
ghost use mathlib.Core.List.{IsPrefix};
ghost use Rattle.store_history.specs.declared.history.Link.{Link};
ghost use Rattle.store_history.specs.History.{root_of};
ghost use Rattle.pin_store.specs.Calls.{seen_by, floor_start, loads_of, IsInside, IsSeatOf, IsSameReader};
ghost use Rattle.pin_store.specs.Calls.{IsSameButLoads};
ghost use Rattle.block_chain.specs.Ways.{block_words, IsBefore, HasRoot};

use crate::block::load_block;
use pin_store::{Reader, Steps, Store};
use std::sync::ledger::Ledger;
use store_history::Law;
use tc_base::Point;

/// Where a reader stands on its way along a chain, before one of its blocks or behind the last.
#[derive(Clone, Copy, Debug)]
pub struct Walk {
    /// The number of the next block plus 1, or 0 where the chain is over.
    next: u64,
}

impl Walk {
    /// Before the first block of what a root names at the end of what the reader has then seen, with the
    /// root's stamp. The law holds of that. One load, and `steps` counts it too.
    pub fn along<L: Law, M: Ledger>(
        reader: &mut Reader<L>,
        store: &Store<L>,
        root: u32,
        steps: &mut Steps<M>,
    ) -> (Walk, Point)
        requires store { IsSeatOf store.now reader.old.place }
        requires shape { HasRoot store.now.shape root }
        requires inside { IsInside reader.old.place }
        ensures store { IsSeatOf store.now reader.new.place }
        ensures same { IsSameReader reader.old.place reader.new.place }
        ensures longer { IsPrefix (seen_by reader.old.place) (seen_by reader.new.place) }
        ensures lawful { L.keeps (seen_by reader.new.place) (floor_start reader.new.place) }
        ensures before { IsBefore store.now.shape reader.new.place root 0 result.0.next }
        ensures stamp { result.1 ≡ (root_of (seen_by reader.new.place) root).stamp }
        ensures loads { loads_of reader.new.place ≡ loads_of reader.old.place + 1 }
        ensures steps { steps.new ≡ steps.old + 1 }
    {
        let named = reader.load_root(store, root, steps);
        let next = match named.first {
            Some(block) => u64::from(block) + 1,
            None => 0,
        };
        (Walk { next }, named.stamp)
    }

    /// Loads the next block, and goes on behind it. Answers false exactly where the chain is over, and then
    /// nothing is loaded. Forty loads where there was a block, and `steps` counts the same.
    pub fn next_block<L: Law, M: Ledger>(
        &mut self,
        reader: &mut Reader<L>,
        store: &Store<L>,
        words: &mut [u64; 40],
        steps: &mut Steps<M>,
    ) -> bool
        requires store { IsSeatOf store.now reader.old.place }
        requires shape { store.now.shape.words ≡ block_words }
        requires inside { IsInside reader.old.place }
        requires before { (root : ℕ) × (place : ℕ)
            × IsBefore store.now.shape reader.old.place root place self.old.next }
        ensures store { IsSeatOf store.now reader.new.place }
        ensures same { IsSameButLoads reader.old.place reader.new.place }
        ensures block { result ≡ true → (root place : ℕ)
            → IsBefore store.now.shape reader.old.place root place self.old.next
            → (l : Link) × (slice_get (root_of (seen_by reader.old.place) root).chain place ≡ Some l)
            × (words.new ≡ l.words)
            × IsBefore store.now.shape reader.new.place root (place + 1) self.new.next }
        ensures loads { result ≡ true → loads_of reader.new.place ≡ loads_of reader.old.place + block_words }
        ensures steps { result ≡ true → steps.new ≡ steps.old + block_words }
        ensures over { result ≡ false → (root place : ℕ)
            → IsBefore store.now.shape reader.old.place root place self.old.next
            → place ≡ length (root_of (seen_by reader.old.place) root).chain }
        ensures none { result ≡ false → (loads_of reader.new.place ≡ loads_of reader.old.place)
            × (steps.new ≡ steps.old) }
    {
        if self.next == 0 {
            return false;
        }
        load_block(reader, store, (self.next - 1) as u32, words, steps);
        self.next = words[39];
        true
    }
}
