//! Records that are kept, or read where they are not.
ghost use Rattle.std.specs.Prelude.{◌≡◌, ◌≤◌, ◌+◌, List, length, slice_set};
ghost use mathlib.Core.List.{IsPrefix};
ghost use Rattle.store_history.specs.declared.history.Link.{Link};
ghost use Rattle.store_history.specs.History.{root_of, first_block, IsNamed};
ghost use Rattle.store_history.specs.Reads.{read_first};
ghost use Rattle.pin_store.specs.Layout.{IsInShape};
ghost use Rattle.pin_store.specs.Calls.{seen_by, floor_start, loads_of, IsInside, IsSeatOf, IsSameReader};
ghost use Rattle.pin_store.specs.Calls.{IsSameButLoads};
ghost use Rattle.block_codec.specs.OfReadings.Read.{mask_of_words, action_of_words};
ghost use Rattle.block_chain.specs.Ways.{block_words, HasRoot};
ghost use Rattle.kept_records.specs.OfThings.Places.{place_of, kept_at, kept_as, AllKept};
ghost use Rattle.kept_records.specs.Blocks.{first_words};
ghost use Rattle.kept_records.specs.Keeping.{WasRead, IsRead};
ghost use Rattle.hook_store_law.specs.Kept.{KeepsHook};

use crate::first_block::load_first;
use crate::things::KeptThings;
use block_codec::readings::{action_in, mask_in};
use block_codec::{StoredAction, StoredMask};
use hook_store_law::{HookLaw, HookStore};
use pin_store::{Reader, RootWord, Steps};
use std::sync::ledger::Ledger;
use tc_base::Point;

// The mask whose words these are, where there are words.
fn mask_of(words: Option<[u64; 40]>) -> Option<StoredMask>
    ensures { (chain : List Link) → words ≡ first_words chain → result ≡ read_first mask_of_words chain }
{
    mask_in(&words?)
}

// The action whose words these are, where there are words.
fn action_of(words: Option<[u64; 40]>) -> Option<StoredAction>
    ensures { (chain : List Link) → words ≡ first_words chain → result ≡ read_first action_of_words chain }
{
    action_in(&words?)
}

// Reads the record of a mask and keeps it. It is rarely called, and has a block and a record on its stack: a
// visit that had them there would pay for clearing them.
#[inline(never)]
fn read_mask<M: Ledger>(
    masks: &mut KeptThings<StoredMask>,
    reader: &mut Reader<HookLaw>,
    store: &HookStore,
    root: u32,
    word: RootWord,
    steps: &mut Steps<M>,
)
    requires store { IsSeatOf store.now reader.old.place }
    requires shape { HasRoot store.now.shape root }
    requires inside { IsInside reader.old.place }
    requires recent { floor_start reader.old.place ≤ length (seen_by reader.old.place) }
    requires sized { (l : Link) → IsNamed (floor_start reader.old.place) (seen_by reader.old.place) l
        → IsInShape store.now.shape l }
    requires first { word.first ≡ first_block (root_of (seen_by reader.old.place) root).chain }
    ensures store { IsSeatOf store.now reader.new.place }
    ensures same { IsSameButLoads reader.old.place reader.new.place }
    ensures places { masks.new ≡ slice_set masks.old (place_of root) (kept_as root word.stamp
        (read_first mask_of_words (root_of (seen_by reader.old.place) root).chain)) }
    ensures there { kept_at masks.new root word.stamp
        ≡ read_first mask_of_words (root_of (seen_by reader.old.place) root).chain }
    ensures few { loads_of reader.new.place ≤ loads_of reader.old.place + block_words }
    ensures steps { steps.new + loads_of reader.old.place ≡ steps.old + loads_of reader.new.place }
{
    let words = load_first(reader, store, root, word.first, steps);
    masks.keep(root, word.stamp, mask_of(words));
}

/// Sees to it that the record of a mask that its root names is kept, and answers the root's stamp.
pub(crate) fn renew_mask<M: Ledger>(
    masks: &mut KeptThings<StoredMask>,
    reader: &mut Reader<HookLaw>,
    store: &HookStore,
    root: u32,
    steps: &mut Steps<M>,
) -> Point
    requires store { IsSeatOf store.now reader.old.place }
    requires shape { HasRoot store.now.shape root }
    requires inside { IsInside reader.old.place }
    requires kept { AllKept (WasRead (IsRead mask_of_words) (seen_by reader.old.place)) masks.old }
    ensures store { IsSeatOf store.now reader.new.place }
    ensures same { IsSameReader reader.old.place reader.new.place }
    ensures longer { IsPrefix (seen_by reader.old.place) (seen_by reader.new.place) }
    ensures lawful { KeepsHook (seen_by reader.new.place) (floor_start reader.new.place) }
    ensures kept { AllKept (WasRead (IsRead mask_of_words) (seen_by reader.new.place)) masks.new }
    ensures mask { kept_at masks.new root result
        ≡ read_first mask_of_words (root_of (seen_by reader.new.place) root).chain }
    ensures stamp { result ≡ (root_of (seen_by reader.new.place) root).stamp }
    ensures few { loads_of reader.new.place ≤ loads_of reader.old.place + 1 + block_words }
    ensures steps { steps.new + loads_of reader.old.place ≡ steps.old + loads_of reader.new.place }
{
    let word = reader.load_root(store, root, steps);
    if word.first.is_some() && masks.at(root, word.stamp).is_some() {
        return word.stamp;
    }
    read_mask(masks, reader, store, root, word, steps);
    word.stamp
}

// And so for the record of an action.
#[inline(never)]
fn read_action<M: Ledger>(
    actions: &mut KeptThings<StoredAction>,
    reader: &mut Reader<HookLaw>,
    store: &HookStore,
    root: u32,
    word: RootWord,
    steps: &mut Steps<M>,
)
    requires store { IsSeatOf store.now reader.old.place }
    requires shape { HasRoot store.now.shape root }
    requires inside { IsInside reader.old.place }
    requires recent { floor_start reader.old.place ≤ length (seen_by reader.old.place) }
    requires sized { (l : Link) → IsNamed (floor_start reader.old.place) (seen_by reader.old.place) l
        → IsInShape store.now.shape l }
    requires first { word.first ≡ first_block (root_of (seen_by reader.old.place) root).chain }
    ensures store { IsSeatOf store.now reader.new.place }
    ensures same { IsSameButLoads reader.old.place reader.new.place }
    ensures places { actions.new ≡ slice_set actions.old (place_of root) (kept_as root word.stamp
        (read_first action_of_words (root_of (seen_by reader.old.place) root).chain)) }
    ensures there { kept_at actions.new root word.stamp
        ≡ read_first action_of_words (root_of (seen_by reader.old.place) root).chain }
    ensures few { loads_of reader.new.place ≤ loads_of reader.old.place + block_words }
    ensures steps { steps.new + loads_of reader.old.place ≡ steps.old + loads_of reader.new.place }
{
    let words = load_first(reader, store, root, word.first, steps);
    actions.keep(root, word.stamp, action_of(words));
}

/// Sees to it that the record of an action that its root names is kept, and answers the root's stamp.
pub(crate) fn renew_action<M: Ledger>(
    actions: &mut KeptThings<StoredAction>,
    reader: &mut Reader<HookLaw>,
    store: &HookStore,
    root: u32,
    steps: &mut Steps<M>,
) -> Point
    requires store { IsSeatOf store.now reader.old.place }
    requires shape { HasRoot store.now.shape root }
    requires inside { IsInside reader.old.place }
    requires kept { AllKept (WasRead (IsRead action_of_words) (seen_by reader.old.place)) actions.old }
    ensures store { IsSeatOf store.now reader.new.place }
    ensures same { IsSameReader reader.old.place reader.new.place }
    ensures longer { IsPrefix (seen_by reader.old.place) (seen_by reader.new.place) }
    ensures lawful { KeepsHook (seen_by reader.new.place) (floor_start reader.new.place) }
    ensures kept { AllKept (WasRead (IsRead action_of_words) (seen_by reader.new.place)) actions.new }
    ensures action { kept_at actions.new root result
        ≡ read_first action_of_words (root_of (seen_by reader.new.place) root).chain }
    ensures stamp { result ≡ (root_of (seen_by reader.new.place) root).stamp }
    ensures few { loads_of reader.new.place ≤ loads_of reader.old.place + 1 + block_words }
    ensures steps { steps.new + loads_of reader.old.place ≡ steps.old + loads_of reader.new.place }
{
    let word = reader.load_root(store, root, steps);
    if word.first.is_some() && actions.at(root, word.stamp).is_some() {
        return word.stamp;
    }
    read_action(actions, reader, store, root, word, steps);
    word.stamp
}
