//! The first block of what a root names.
ghost use Rattle.std.specs.Prelude.{◌≡◌, ◌≤◌, ◌+◌, ◌<◌, length};
ghost use Rattle.store_history.specs.declared.history.Link.{Link};
ghost use Rattle.store_history.specs.History.{root_of, first_block, IsNamed};
ghost use Rattle.pin_store.specs.Layout.{IsInShape};
ghost use Rattle.pin_store.specs.Calls.{seen_by, floor_start, loads_of, IsInside, IsSeatOf, IsSameButLoads};
ghost use Rattle.block_chain.specs.Ways.{block_words};
ghost use Rattle.kept_records.specs.Blocks.{first_words};

use block_chain::load_block;
use pin_store::{Reader, Steps, Store};
use std::sync::ledger::Ledger;
use store_history::Law;

/// The words of the first block of what a root names, where there is one. The root is named for the contract
/// alone: its word was loaded.
pub(crate) fn load_first<L: Law, M: Ledger>(
    reader: &mut Reader<L>,
    store: &Store<L>,
    root: u32,
    first: Option<u32>,
    steps: &mut Steps<M>,
) -> Option<[u64; 40]>
    requires store { IsSeatOf store.now reader.old.place }
    requires shape { store.now.shape.words ≡ block_words }
    requires inside { IsInside reader.old.place }
    requires recent { floor_start reader.old.place ≤ length (seen_by reader.old.place) }
    requires sized { (l : Link) → IsNamed (floor_start reader.old.place) (seen_by reader.old.place) l
        → IsInShape store.now.shape l }
    requires first { first ≡ first_block (root_of (seen_by reader.old.place) root).chain }
    ensures store { IsSeatOf store.now reader.new.place }
    ensures same { IsSameButLoads reader.old.place reader.new.place }
    ensures words { result ≡ first_words (root_of (seen_by reader.old.place) root).chain }
    ensures few { loads_of reader.new.place ≤ loads_of reader.old.place + block_words }
    ensures steps { steps.new + loads_of reader.old.place ≡ steps.old + loads_of reader.new.place }
{
    let block = first?;
    let mut words = [0; 40];
    load_block(reader, store, block, &mut words, steps);
    Some(words)
}
