//! All words of a block.
ghost use Rattle.std.specs.Prelude.{◌≡◌, ◌+◌, ◌<◌};
ghost use Rattle.store_history.specs.declared.history.Link.{Link};
ghost use Rattle.store_history.specs.History.{IsNamed};
ghost use Rattle.pin_store.specs.Layout.{IsInShape};
ghost use Rattle.pin_store.specs.Calls.{seen_by, floor_start, loads_of, IsInside, IsSeatOf, IsSameButLoads};
ghost use Rattle.block_chain.specs.Ways.{block_words};

use pin_store::{Reader, Steps, Store};
use std::sync::ledger::Ledger;
use store_history::Law;

/// The words of a block that is in some chain which was named since the reader's floor, as far as the reader
/// has seen. They are those of every such block of that number. Forty loads, and `steps` counts the same.
pub fn load_block<L: Law, M: Ledger>(
    reader: &mut Reader<L>,
    store: &Store<L>,
    block: u32,
    words: &mut [u64; 40],
    steps: &mut Steps<M>,
)
    requires store { IsSeatOf store.now reader.old.place }
    requires shape { (store.now.shape.words ≡ block_words) × (block < store.now.shape.blocks) }
    requires inside { IsInside reader.old.place }
    requires told { (l : Link) × IsNamed (floor_start reader.old.place) (seen_by reader.old.place) l
        × (l.block ≡ block) }
    ensures store { IsSeatOf store.now reader.new.place }
    ensures same { IsSameButLoads reader.old.place reader.new.place }
    ensures words { (l : Link) → IsNamed (floor_start reader.old.place) (seen_by reader.old.place) l
        → l.block ≡ block → IsInShape store.now.shape l
        → words.new ≡ l.words }
    ensures loads { loads_of reader.new.place ≡ loads_of reader.old.place + block_words }
    ensures steps { steps.new ≡ steps.old + block_words }
{
    for place in 0..40 {
        words[place as usize] = reader.load_word(store, block, place, steps);
    }
}
