//! The search of a bucket.
ghost use Rattle.std.specs.Prelude.{◌≡◌, ◌≤◌, ◌+◌, ◌*◌, List, length, Some};
ghost use mathlib.Core.List.{IsPrefix};
ghost use Rattle.store_history.specs.declared.history.Link.{Link};
ghost use Rattle.store_history.specs.History.{root_of, first_block, first_number};
ghost use Rattle.store_history.specs.Reads.{read_all};
ghost use Rattle.pin_store.specs.Calls.{seen_by, floor_start, loads_of, IsInside, IsSeatOf, IsSameReader};
ghost use Rattle.block_codec.specs.declared.filter.StoredFilter.{StoredFilter};
ghost use Rattle.block_codec.specs.OfReadings.Read.{filter_in};
ghost use Rattle.block_chain.specs.Ways.{block_words, HasRoot};
ghost use Rattle.mask_table.specs.Buckets.{IsAnswer};
ghost use Rattle.hook_store_law.specs.Kept.{KeepsHook};
ghost use Rattle.kept_records.specs.OfThings.Places.{AllKept};
ghost use Rattle.kept_records.specs.Keeping.{WasRead, IsKnown};

use crate::known_filter::{KnownFilter, keep_known, tell_known};
use crate::searches::find_from;
use crate::things::KeptThings;
use flow_fields::Key;
use hook_store_law::{HookLaw, HookStore};
use pin_store::{Reader, Steps};
use std::sync::ledger::Ledger;
use tc_base::Point;
use visit_room::Hit;

// The number of a block plus 1, or 0 where there is none.
fn number_of(first: Option<u32>) -> u64
    ensures { (chain : List Link) → first ≡ first_block chain → result ≡ first_number chain }
{
    match first {
        Some(block) => u64::from(block) + 1,
        None => 0,
    }
}

/// Whether a filter of the bucket with that root has the key, with its actions, and the root's stamp.
pub(crate) fn search<M: Ledger>(
    filters: &mut KeptThings<KnownFilter>,
    reader: &mut Reader<HookLaw>,
    store: &HookStore,
    root: u32,
    key: &Key<14>,
    into: &mut Hit,
    steps: &mut Steps<M>,
) -> (bool, Point)
    requires store { IsSeatOf store.now reader.old.place }
    requires shape { HasRoot store.now.shape root }
    requires inside { IsInside reader.old.place }
    requires kept { AllKept (WasRead IsKnown (seen_by reader.old.place)) filters.old }
    ensures store { IsSeatOf store.now reader.new.place }
    ensures same { IsSameReader reader.old.place reader.new.place }
    ensures longer { IsPrefix (seen_by reader.old.place) (seen_by reader.new.place) }
    ensures kept { AllKept (WasRead IsKnown (seen_by reader.new.place)) filters.new }
    ensures lawful { KeepsHook (seen_by reader.new.place) (floor_start reader.new.place) }
    ensures found { (there : List StoredFilter)
        → read_all filter_in (root_of (seen_by reader.new.place) root).chain ≡ Some there
        → IsAnswer there key.now.words result.0 into.new }
    ensures stamp { result.1 ≡ (root_of (seen_by reader.new.place) root).stamp }
    ensures few { loads_of reader.new.place
        ≤ loads_of reader.old.place + 1 + block_words * length
        (root_of (seen_by reader.new.place) root).chain }
    ensures steps { steps.new + loads_of reader.old.place ≡ steps.old + loads_of reader.new.place }
{
    let word = reader.load_root(store, root, steps);
    if word.first.is_some() && tell_known(filters, root, word.stamp, key, into) {
        return (true, word.stamp);
    }
    let next = number_of(word.first);
    let found = find_from(reader, store, root, next, key, into, steps);
    keep_known(filters, root, word.stamp, found, key, into);
    (found, word.stamp)
}
