//! What a block says of a filter, a word at a time.
ghost use Rattle.std.specs.Prelude.{◌≡◌, ◌+◌, ◌<◌, ◌≤◌, ◌↔◌, IsTrue, length, map, slice_index, slice_range};
ghost use Rattle.store_history.specs.declared.history.Link.{Link};
ghost use Rattle.store_history.specs.History.{IsNamed};
ghost use Rattle.pin_store.specs.Layout.{IsInShape};
ghost use Rattle.pin_store.specs.Calls.{seen_by, floor_start, loads_of, IsInside, IsSeatOf, IsSameButLoads};
ghost use Rattle.block_codec.specs.Names.{action_in};
ghost use Rattle.block_chain.specs.Ways.{block_words};

use flow_fields::Key;
use pin_store::{Reader, Steps, Store};
use std::sync::ledger::Ledger;
use store_history::Law;
use visit_room::{ActionName, Hit};

/// Where the number of actions stands, the key, and the actions.
const COUNT: u32 = 2;

const KEY: u32 = 3;

const ACTIONS: u32 = 17;

/// The words of a key, and the actions of a filter at most.
const KEY_WORDS: u32 = 14;

const ACTIONS_MAX: u64 = 16;

// The words of a key: there are fourteen.
fn words_of(key: &Key<14>) -> &[u64]
    ensures words { result.now ≡ key.now.words }
    ensures count { length result.now ≡ 14 }
{
    &key.words
}

/// Whether the filter in a block has the key. The block is in some chain that was named since the reader's
/// floor. At most fourteen loads.
pub(crate) fn has_key<L: Law, M: Ledger>(
    reader: &mut Reader<L>,
    store: &Store<L>,
    block: u32,
    key: &Key<14>,
    steps: &mut Steps<M>,
) -> bool
    requires store { IsSeatOf store.now reader.old.place }
    requires shape { (store.now.shape.words ≡ block_words) × (block < store.now.shape.blocks) }
    requires inside { IsInside reader.old.place }
    requires told { (l : Link) × IsNamed (floor_start reader.old.place) (seen_by reader.old.place) l
        × (l.block ≡ block) }
    ensures store { IsSeatOf store.now reader.new.place }
    ensures same { IsSameButLoads reader.old.place reader.new.place }
    ensures key { (l : Link) → IsNamed (floor_start reader.old.place) (seen_by reader.old.place) l
        → l.block ≡ block → IsInShape store.now.shape l
        → IsTrue result ↔ (slice_range l.words 3 17 ≡ key.now.words) }
    ensures grown { loads_of reader.old.place ≤ loads_of reader.new.place }
    ensures few { loads_of reader.new.place ≤ loads_of reader.old.place + 14 }
    ensures steps { steps.new + loads_of reader.old.place ≡ steps.old + loads_of reader.new.place }
{
    let words = words_of(key);
    for place in 0..KEY_WORDS {
        if reader.load_word(store, block, KEY + place, steps) != words[place as usize] {
            return false;
        }
    }
    true
}

// The action that a word names.
fn action_in(word: u64) -> ActionName
    ensures { result ≡ action_in word }
{
    ActionName {
        serial: (word % (1 << 32)) as u32,
        slot: (word / (1 << 32)) as u32,
    }
}

/// The actions of the filter in such a block. At most seventeen loads.
pub(crate) fn tell_actions<L: Law, M: Ledger>(
    reader: &mut Reader<L>,
    store: &Store<L>,
    block: u32,
    into: &mut Hit,
    steps: &mut Steps<M>,
)
    requires store { IsSeatOf store.now reader.old.place }
    requires shape { (store.now.shape.words ≡ block_words) × (block < store.now.shape.blocks) }
    requires inside { IsInside reader.old.place }
    requires told { (l : Link) × IsNamed (floor_start reader.old.place) (seen_by reader.old.place) l
        × (l.block ≡ block) }
    ensures store { IsSeatOf store.now reader.new.place }
    ensures same { IsSameButLoads reader.old.place reader.new.place }
    ensures actions { (l : Link) → IsNamed (floor_start reader.old.place) (seen_by reader.old.place) l
        → l.block ≡ block → IsInShape store.now.shape l → slice_index l.words 2 ≤ 16
        → into.new ≡ map action_in (slice_range l.words 17 (17 + slice_index l.words 2)) }
    ensures few { loads_of reader.new.place ≤ loads_of reader.old.place + 17 }
    ensures steps { steps.new + loads_of reader.old.place ≡ steps.old + loads_of reader.new.place }
{
    into.clear();
    let count = reader
        .load_word(store, block, COUNT, steps)
        .min(ACTIONS_MAX) as u32;
    for place in 0..count {
        let word = reader.load_word(store, block, ACTIONS + place, steps);
        into.push(action_in(word));
    }
}
