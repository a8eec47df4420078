//! The loads of the three visits, which nobody counts here.
ghost use Rattle.store_history.specs.declared.places.TheConstants.{ACTION_SLOTS, MASK_SLOTS, ROOTS};
ghost use Rattle.std.specs.Prelude.{◌≡◌, ◌<◌, ◌≤◌, ◌-◌, ℕ, length, take};
ghost use Rattle.std.specs.Option.{option_map};
ghost use mathlib.Core.List.{IsPrefix};
ghost use Rattle.store_history.specs.History.{root_of, first_block};
ghost use Rattle.root_word_laws.specs.Words.{StampsRise};
ghost use Rattle.store_history.specs.Reads.{read_first};
ghost use Rattle.pin_store.specs.Calls.{seen_by, floor_start, loads_of, IsInside, IsSeatOf, IsSameReader};
ghost use Rattle.block_codec.specs.declared.action.StoredAction.{StoredAction};
ghost use Rattle.block_codec.specs.OfReadings.Read.{action_of_words};
ghost use Rattle.block_chain.specs.Ways.{block_words};
ghost use Rattle.mask_table.specs.Told.{LookedUp, IsLoadedPoint};
ghost use Rattle.miniq_pair.specs.Heads.{head_root, HeadTold};
ghost use Rattle.hook_law.specs.Places.{action_root};
ghost use Rattle.hook_law.specs.Keeping.{Keeps};
ghost use Rattle.hook_store_law.specs.Stated.{hook_meaning};
ghost use Rattle.hook_store_law.specs.Blocks.{hook_codec};
ghost use Rattle.hook_store_law.specs.Told.{heads_after, stands_at, words_after, filters_after};
ghost use Rattle.kept_records.specs.Keeping.{KeepsRecords};

use act_kinds::Params;
use flow_fields::Key;
use hook_store_law::{HookLaw, HookStore};
use kept_records::HookRecords;
use miniq_pair::head;
use pin_store::{Reader, RootWord, Steps};
use std::marker::Brand;
use std::sync::ledger::{Blank, Ledger};
use tc_base::{Hook, Point};
use visit_room::{HeadRoom, Hit};

fn head_as<M: Ledger>(
    reader: &mut Reader<HookLaw>,
    store: &HookStore,
    hook: Hook,
    into: &mut HeadRoom,
    blank: Blank,
) -> Point
    requires store { IsSeatOf store.now reader.old.place }
    requires shape { (store.now.shape.words ≡ block_words) × (ROOTS ≤ store.now.shape.roots) }
    requires inside { IsInside reader.old.place }
    requires blank { (blank.name ≡ M.name) × (blank.parts ≡ M.parts) × (0 < M.parts) }
    ensures store { IsSeatOf store.now reader.new.place }
    ensures same { IsSameReader reader.old.place reader.new.place }
    ensures longer { IsPrefix (seen_by reader.old.place) (seen_by reader.new.place) }
    ensures lawful { Keeps hook_meaning hook_codec (seen_by reader.new.place)
        (floor_start reader.new.place) }
    ensures stamp { result ≡ (root_of (seen_by reader.new.place) (head_root hook)).stamp }
    ensures told { HeadTold (λ k. heads_after (seen_by reader.new.place) k hook)
        (seen_by reader.new.place) hook into.new.tables result }
{
    let mut steps = Steps::<M>::new(blank);
    head(reader, store, hook, into, &mut steps)
}

/// The tables of a hook, and the stamp of its root.
pub(crate) fn read_head(
    reader: &mut Reader<HookLaw>,
    store: &HookStore,
    hook: Hook,
    into: &mut HeadRoom,
) -> Point
    requires store { IsSeatOf store.now reader.old.place }
    requires shape { (store.now.shape.words ≡ block_words) × (ROOTS ≤ store.now.shape.roots) }
    requires inside { IsInside reader.old.place }
    ensures store { IsSeatOf store.now reader.new.place }
    ensures same { IsSameReader reader.old.place reader.new.place }
    ensures longer { IsPrefix (seen_by reader.old.place) (seen_by reader.new.place) }
    ensures lawful { Keeps hook_meaning hook_codec (seen_by reader.new.place)
        (floor_start reader.new.place) }
    ensures stamp { result ≡ (root_of (seen_by reader.new.place) (head_root hook)).stamp }
    ensures told { HeadTold (λ k. heads_after (seen_by reader.new.place) k hook)
        (seen_by reader.new.place) hook into.new.tables result }
{
    head_as::<Brand>(reader, store, hook, into, Blank::new(1))
}

fn look_as<M: Ledger>(
    records: &mut HookRecords,
    reader: &mut Reader<HookLaw>,
    store: &HookStore,
    slot: u32,
    key: &Key<14>,
    into: &mut Hit,
    blank: Blank,
) -> (bool, Point)
    requires store { IsSeatOf store.now reader.old.place }
    requires shape { (store.now.shape.words ≡ block_words) × (ROOTS ≤ store.now.shape.roots) }
    requires slot { slot < MASK_SLOTS }
    requires inside { IsInside reader.old.place }
    requires kept { KeepsRecords (seen_by reader.old.place) records.old }
    requires blank { (blank.name ≡ M.name) × (blank.parts ≡ M.parts) × (0 < M.parts) }
    ensures store { IsSeatOf store.now reader.new.place }
    ensures same { IsSameReader reader.old.place reader.new.place }
    ensures longer { IsPrefix (seen_by reader.old.place) (seen_by reader.new.place) }
    ensures kept { KeepsRecords (seen_by reader.new.place) records.new }
    ensures lawful { Keeps hook_meaning hook_codec (seen_by reader.new.place)
        (floor_start reader.new.place) }
    ensures stamps { IsLoadedPoint (seen_by reader.old.place) (seen_by reader.new.place) slot key.now.words
        result.0 result.1 }
    ensures found { (n serial : ℕ) → floor_start reader.old.place ≤ n → n ≤ length (seen_by reader.old.place)
        → stands_at (take n (seen_by reader.old.place)) slot serial
        → LookedUp stands_at (λ k. words_after (seen_by reader.new.place) k serial)
        (λ k. filters_after (seen_by reader.new.place) k serial)
        (seen_by reader.new.place) n slot serial key.now.words result.0 into.new result.1
        (loads_of reader.new.place - loads_of reader.old.place) }
{
    let mut steps = Steps::<M>::new(blank);
    records.look(reader, store, slot, key, into, &mut steps)
}

/// Whether the mask at a slot has a filter with the packet's key under the mask, with its actions, and the
/// greatest of the stamps.
pub(crate) fn look(
    records: &mut HookRecords,
    reader: &mut Reader<HookLaw>,
    store: &HookStore,
    slot: u32,
    key: &Key<14>,
    into: &mut Hit,
) -> (bool, Point)
    requires store { IsSeatOf store.now reader.old.place }
    requires shape { (store.now.shape.words ≡ block_words) × (ROOTS ≤ store.now.shape.roots) }
    requires slot { slot < MASK_SLOTS }
    requires inside { IsInside reader.old.place }
    requires kept { KeepsRecords (seen_by reader.old.place) records.old }
    ensures store { IsSeatOf store.now reader.new.place }
    ensures same { IsSameReader reader.old.place reader.new.place }
    ensures longer { IsPrefix (seen_by reader.old.place) (seen_by reader.new.place) }
    ensures kept { KeepsRecords (seen_by reader.new.place) records.new }
    ensures lawful { Keeps hook_meaning hook_codec (seen_by reader.new.place)
        (floor_start reader.new.place) }
    ensures stamps { IsLoadedPoint (seen_by reader.old.place) (seen_by reader.new.place) slot key.now.words
        result.0 result.1 }
    ensures found { (n serial : ℕ) → floor_start reader.old.place ≤ n → n ≤ length (seen_by reader.old.place)
        → stands_at (take n (seen_by reader.old.place)) slot serial
        → LookedUp stands_at (λ k. words_after (seen_by reader.new.place) k serial)
        (λ k. filters_after (seen_by reader.new.place) k serial)
        (seen_by reader.new.place) n slot serial key.now.words result.0 into.new result.1
        (loads_of reader.new.place - loads_of reader.old.place) }
{
    look_as::<Brand>(records, reader, store, slot, key, into, Blank::new(1))
}

fn action_as<M: Ledger>(
    records: &mut HookRecords,
    reader: &mut Reader<HookLaw>,
    store: &HookStore,
    slot: u32,
    blank: Blank,
) -> (Option<Params>, Point)
    requires store { IsSeatOf store.now reader.old.place }
    requires shape { (store.now.shape.words ≡ block_words) × (ROOTS ≤ store.now.shape.roots) }
    requires slot { slot < ACTION_SLOTS }
    requires inside { IsInside reader.old.place }
    requires kept { KeepsRecords (seen_by reader.old.place) records.old }
    requires blank { (blank.name ≡ M.name) × (blank.parts ≡ M.parts) × (0 < M.parts) }
    ensures store { IsSeatOf store.now reader.new.place }
    ensures same { IsSameReader reader.old.place reader.new.place }
    ensures longer { IsPrefix (seen_by reader.old.place) (seen_by reader.new.place) }
    ensures kept { KeepsRecords (seen_by reader.new.place) records.new }
    ensures lawful { Keeps hook_meaning hook_codec (seen_by reader.new.place)
        (floor_start reader.new.place) }
    ensures params { result.0 ≡ option_map (λ (it : StoredAction). it.params)
        (read_first action_of_words (root_of (seen_by reader.new.place) (action_root slot)).chain) }
    ensures stamp { result.1 ≡ (root_of (seen_by reader.new.place) (action_root slot)).stamp }
{
    let mut steps = Steps::<M>::new(blank);
    records.action(reader, store, slot, &mut steps)
}

/// The parameters of the action at a slot, and the stamp of the slot's root.
pub(crate) fn read_action(
    records: &mut HookRecords,
    reader: &mut Reader<HookLaw>,
    store: &HookStore,
    slot: u32,
) -> (Option<Params>, Point)
    requires store { IsSeatOf store.now reader.old.place }
    requires shape { (store.now.shape.words ≡ block_words) × (ROOTS ≤ store.now.shape.roots) }
    requires slot { slot < ACTION_SLOTS }
    requires inside { IsInside reader.old.place }
    requires kept { KeepsRecords (seen_by reader.old.place) records.old }
    ensures store { IsSeatOf store.now reader.new.place }
    ensures same { IsSameReader reader.old.place reader.new.place }
    ensures longer { IsPrefix (seen_by reader.old.place) (seen_by reader.new.place) }
    ensures kept { KeepsRecords (seen_by reader.new.place) records.new }
    ensures lawful { Keeps hook_meaning hook_codec (seen_by reader.new.place)
        (floor_start reader.new.place) }
    ensures params { result.0 ≡ option_map (λ (it : StoredAction). it.params)
        (read_first action_of_words (root_of (seen_by reader.new.place) (action_root slot)).chain) }
    ensures stamp { result.1 ≡ (root_of (seen_by reader.new.place) (action_root slot)).stamp }
{
    action_as::<Brand>(records, reader, store, slot, Blank::new(1))
}

fn word_as<M: Ledger>(
    reader: &mut Reader<HookLaw>,
    store: &HookStore,
    root: u32,
    blank: Blank,
) -> RootWord
    requires store { IsSeatOf store.now reader.old.place }
    requires root { root < store.now.shape.roots }
    requires inside { IsInside reader.old.place }
    requires blank { (blank.name ≡ M.name) × (blank.parts ≡ M.parts) × (0 < M.parts) }
    ensures store { IsSeatOf store.now reader.new.place }
    ensures same { IsSameReader reader.old.place reader.new.place }
    ensures longer { IsPrefix (seen_by reader.old.place) (seen_by reader.new.place) }
    ensures recent { floor_start reader.new.place ≤ length (seen_by reader.new.place) }
    ensures lawful { Keeps hook_meaning hook_codec (seen_by reader.new.place)
        (floor_start reader.new.place) }
    ensures rising { StampsRise (seen_by reader.new.place) }
    ensures first { result.first ≡ first_block (root_of (seen_by reader.new.place) root).chain }
    ensures stamp { result.stamp ≡ (root_of (seen_by reader.new.place) root).stamp }
{
    let mut steps = Steps::<M>::new(blank);
    reader.load_root(store, root, &mut steps)
}

/// The word of a root.
pub(crate) fn load_word(reader: &mut Reader<HookLaw>, store: &HookStore, root: u32) -> RootWord
    requires store { IsSeatOf store.now reader.old.place }
    requires root { root < store.now.shape.roots }
    requires inside { IsInside reader.old.place }
    ensures store { IsSeatOf store.now reader.new.place }
    ensures same { IsSameReader reader.old.place reader.new.place }
    ensures longer { IsPrefix (seen_by reader.old.place) (seen_by reader.new.place) }
    ensures recent { floor_start reader.new.place ≤ length (seen_by reader.new.place) }
    ensures lawful { Keeps hook_meaning hook_codec (seen_by reader.new.place)
        (floor_start reader.new.place) }
    ensures rising { StampsRise (seen_by reader.new.place) }
    ensures first { result.first ≡ first_block (root_of (seen_by reader.new.place) root).chain }
    ensures stamp { result.stamp ≡ (root_of (seen_by reader.new.place) root).stamp }
{
    word_as::<Brand>(reader, store, root, Blank::new(1))
}
