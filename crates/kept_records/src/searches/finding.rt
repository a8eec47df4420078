//! The way along a bucket's chain.
ghost use Rattle.std.specs.Prelude.{◌≡◌, ℕ, ◌+◌, ◌*◌, ◌≤◌, List, length, drop, Some};
ghost use Rattle.store_history.specs.History.{root_of};
ghost use Rattle.store_history.specs.Reads.{read_all};
ghost use Rattle.pin_store.specs.Calls.{seen_by, loads_of, IsInside, IsSeatOf, IsSameButLoads};
ghost use Rattle.block_codec.specs.declared.filter.StoredFilter.{StoredFilter};
ghost use Rattle.block_codec.specs.OfReadings.Read.{filter_in};
ghost use Rattle.block_chain.specs.Ways.{block_words, IsBefore};
ghost use Rattle.mask_table.specs.Buckets.{IsAnswer};

use crate::searches::block::{has_key, tell_actions};
use flow_fields::Key;
use pin_store::{Reader, Steps, Store};
use std::sync::ledger::Ledger;
use store_history::Law;
use visit_room::Hit;

/// The word of a block that links to the next.
const LINK: u32 = 39;

/// Whether a filter has the key, among those from a place of the root's chain on, with its actions.
///
/// `next` is the number of the block at that place plus 1, or 0 where the chain is over. The root is named
/// for the contract alone, and nothing is loaded of it.
pub fn find_from<L: Law, M: Ledger>(
    reader: &mut Reader<L>,
    store: &Store<L>,
    root: u32,
    next: u64,
    key: &Key<14>,
    into: &mut Hit,
    steps: &mut Steps<M>,
) -> bool
    requires store { IsSeatOf store.now reader.old.place }
    requires shape { store.now.shape.words ≡ block_words }
    requires inside { IsInside reader.old.place }
    requires before { (place : ℕ) × IsBefore store.now.shape reader.old.place root place next }
    ensures store { IsSeatOf store.now reader.new.place }
    ensures same { IsSameButLoads reader.old.place reader.new.place }
    ensures found { (place : ℕ) (there : List StoredFilter)
        → IsBefore store.now.shape reader.old.place root place next
        → read_all filter_in (root_of (seen_by reader.old.place) root).chain ≡ Some there
        → IsAnswer (drop place there) key.now.words result into.new }
    ensures few { (place : ℕ) → IsBefore store.now.shape reader.old.place root place next
        → loads_of reader.new.place + block_words * place
        ≤ loads_of reader.old.place + block_words * length
        (root_of (seen_by reader.old.place) root).chain }
    ensures steps { steps.new + loads_of reader.old.place ≡ steps.old + loads_of reader.new.place }
{
    let mut ahead = next;
    while ahead != 0 {
        let block = (ahead - 1) as u32;
        if has_key(reader, store, block, key, steps) {
            tell_actions(reader, store, block, into, steps);
            return true;
        }
        ahead = reader.load_word(store, block, LINK, steps);
    }
    false
}
