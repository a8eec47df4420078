//! The two visits that use what is kept.
ghost use Rattle.store_history.specs.declared.places.TheConstants.{ACTION_SLOTS, MASK_SLOTS, ROOTS, ROWS};
ghost use Rattle.std.specs.Prelude.{◌≡◌, ◌+◌, ◌*◌, ◌<◌, ◌≤◌, length, All};
ghost use Rattle.mask_table.specs.Buckets.{bucket_root, bucket_for};

use crate::bucket::search;
use crate::records::HookRecords;
use crate::renewing::{renew_action, renew_mask};
use act_kinds::Params;
use block_codec::StoredMask;
use flow_fields::Key;
use flow_mask::{hash, masked};
use hook_store_law::{HookLaw, HookStore};
use pin_store::{Reader, Steps};
use std::sync::ledger::Ledger;
use store_history::places::{ACTION_ROOTS, BUCKET_ROOTS, MASK_ROOTS, ROW_BUCKETS};
use tc_base::Point;
use visit_room::Hit;

// The root of the bucket in which a key would be, where the mask's rows are within the limits.
fn root_for(mask: &StoredMask, key: &Key<14>) -> u32
    requires size { 0 < mask.now.size }
    requires rows { mask.now.size ≡ 16 * length mask.now.rows }
    requires small { All (λ row. row < ROWS) mask.now.rows }
    ensures { result ≡ bucket_root mask.now (bucket_for mask.now.size key.now.words) }
{
    let bucket = (hash(key) % u64::from(mask.size)) as u32;
    let row = mask.rows.items()[(bucket / ROW_BUCKETS) as usize];
    BUCKET_ROOTS + ROW_BUCKETS * row + bucket % ROW_BUCKETS
}

// The words of a key: there are fourteen.
fn words_of(key: &Key<14>) -> &[u64]
    ensures words { result.now ≡ key.now.words }
    ensures count { length result.now ≡ 14 }
{
    &key.words
}

impl HookRecords {
    ghost use Rattle.std.specs.Prelude.{ℕ, ◌-◌, Option, take};
    ghost use Rattle.std.specs.Option.{option_map};
    ghost use mathlib.Core.List.{IsPrefix};
    ghost use Rattle.store_history.specs.History.{root_of};
    ghost use Rattle.store_history.specs.Reads.{read_first};
    ghost use Rattle.pin_store.specs.Calls.{seen_by, floor_start, loads_of, IsInside, IsSeatOf};
    ghost use Rattle.pin_store.specs.Calls.{IsSameReader};
    ghost use Rattle.block_codec.specs.declared.action.StoredAction.{StoredAction as ActionRecord};
    ghost use Rattle.block_codec.specs.OfReadings.Read.{action_of_words};
    ghost use Rattle.block_chain.specs.Ways.{block_words};
    ghost use Rattle.mask_table.specs.Told.{LookedUp, IsLoadedPoint};
    ghost use Rattle.hook_law.specs.Places.{action_root};
    ghost use Rattle.hook_law.specs.Keeping.{Keeps};
    ghost use Rattle.hook_store_law.specs.Stated.{hook_meaning};
    ghost use Rattle.hook_store_law.specs.Blocks.{hook_codec};
    ghost use Rattle.hook_store_law.specs.Told.{stands_at, words_after, filters_after};
    ghost use Rattle.kept_records.specs.Keeping.{KeepsRecords};

    /// Whether the mask at a slot has a filter with the packet's key under the mask, with its actions, and
    /// the greatest of the stamps. What `into` has where there is none is left open.
    pub fn look<M: Ledger>(
        &mut self,
        reader: &mut Reader<HookLaw>,
        store: &HookStore,
        slot: u32,
        key: &Key<14>,
        into: &mut Hit,
        steps: &mut Steps<M>,
    ) -> (bool, Point)
        requires store { IsSeatOf store.now reader.old.place }
        requires shape { (store.now.shape.words ≡ block_words) × (ROOTS ≤ store.now.shape.roots) }
        requires slot { slot < MASK_SLOTS }
        requires inside { IsInside reader.old.place }
        requires kept { KeepsRecords (seen_by reader.old.place) self.old }
        ensures store { IsSeatOf store.now reader.new.place }
        ensures same { IsSameReader reader.old.place reader.new.place }
        ensures longer { IsPrefix (seen_by reader.old.place) (seen_by reader.new.place) }
        ensures lawful { Keeps hook_meaning hook_codec (seen_by reader.new.place)
            (floor_start reader.new.place) }
        ensures kept { KeepsRecords (seen_by reader.new.place) self.new }
        ensures stamps { IsLoadedPoint (seen_by reader.old.place) (seen_by reader.new.place) slot
            key.now.words result.0 result.1 }
        ensures steps { steps.new + loads_of reader.old.place ≡ steps.old + loads_of reader.new.place }
        ensures found { (n serial : ℕ) → floor_start reader.old.place ≤ n
            → n ≤ length (seen_by reader.old.place)
            → stands_at (take n (seen_by reader.old.place)) slot serial
            → LookedUp stands_at (λ k. words_after (seen_by reader.new.place) k serial)
            (λ k. filters_after (seen_by reader.new.place) k serial)
            (seen_by reader.new.place) n slot serial key.now.words result.0 into.new result.1
            (loads_of reader.new.place - loads_of reader.old.place) }
    {
        let HookRecords { masks, filters, .. } = self;
        let at = MASK_ROOTS + slot;
        let stamp = renew_mask(masks, reader, store, at, steps);
        let Some(mask) = masks.at(at, stamp) else {
            return (false, stamp);
        };
        let _words = words_of(&mask.mask);
        let wanted = masked(key, &mask.mask);
        let root = root_for(mask, &wanted);
        let (found, later) = search(filters, reader, store, root, &wanted, into, steps);
        (found, stamp.max(later))
    }

    /// The parameters of the action at a slot, and the stamp of the slot's root. None where it names none.
    pub fn action<M: Ledger>(
        &mut self,
        reader: &mut Reader<HookLaw>,
        store: &HookStore,
        slot: u32,
        steps: &mut Steps<M>,
    ) -> (Option<Params>, Point)
        requires store { IsSeatOf store.now reader.old.place }
        requires shape { (store.now.shape.words ≡ block_words) × (ROOTS ≤ store.now.shape.roots) }
        requires slot { slot < ACTION_SLOTS }
        requires inside { IsInside reader.old.place }
        requires kept { KeepsRecords (seen_by reader.old.place) self.old }
        ensures store { IsSeatOf store.now reader.new.place }
        ensures same { IsSameReader reader.old.place reader.new.place }
        ensures longer { IsPrefix (seen_by reader.old.place) (seen_by reader.new.place) }
        ensures lawful { Keeps hook_meaning hook_codec (seen_by reader.new.place)
            (floor_start reader.new.place) }
        ensures kept { KeepsRecords (seen_by reader.new.place) self.new }
        ensures params { result.0 ≡ option_map (λ (it : ActionRecord). it.params)
            (read_first action_of_words (root_of (seen_by reader.new.place) (action_root slot)).chain) }
        ensures stamp { result.1 ≡ (root_of (seen_by reader.new.place) (action_root slot)).stamp }
        ensures few { loads_of reader.new.place ≤ loads_of reader.old.place + 1 + block_words }
        ensures steps { steps.new + loads_of reader.old.place ≡ steps.old + loads_of reader.new.place }
    {
        let HookRecords { actions, .. } = self;
        let root = ACTION_ROOTS + slot;
        let stamp = renew_action(actions, reader, store, root, steps);
        match actions.at(root, stamp) {
            Some(action) => (Some(action.params), stamp),
            None => (None, stamp),
        }
    }
}
