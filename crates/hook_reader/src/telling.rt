//! A head that is told from what was kept of it, or read.
ghost use Rattle.store_history.specs.declared.places.TheConstants.{ROOTS};
ghost use Rattle.std.specs.Prelude.{◌≡◌, ◌≤◌};
ghost use mathlib.Core.List.{IsPrefix};
ghost use Rattle.store_history.specs.History.{root_of};
ghost use Rattle.pin_store.specs.Calls.{seen_by, floor_start, IsInside, IsSeatOf, IsSameReader};
ghost use Rattle.block_chain.specs.Ways.{block_words};
ghost use Rattle.miniq_pair.specs.Heads.{head_root, HeadTold};
ghost use Rattle.hook_law.specs.Keeping.{Keeps};
ghost use Rattle.hook_store_law.specs.Stated.{hook_meaning};
ghost use Rattle.hook_store_law.specs.Blocks.{hook_codec};
ghost use Rattle.hook_store_law.specs.Told.{heads_after};
ghost use Rattle.hook_reader.specs.KeptHeads.{IsKept, KeepsHeads};

use crate::kept_head::KeptHead;
use crate::loads::{load_word, read_head};
use hook_store_law::{HookLaw, HookStore};
use pin_store::Reader;
use store_history::places::HEAD_ROOTS;
use tc_base::{Hook, Point};
use visit_room::HeadRoom;

// The root of a hook's tables.
fn root_for(hook: Hook) -> u32
    ensures { result ≡ head_root hook }
{
    match hook {
        Hook::Ingress => HEAD_ROOTS,
        Hook::Egress => HEAD_ROOTS + 1,
    }
}

// Tells the tables of a hook, and keeps them where the root has another stamp than before.
fn tell_head(
    reader: &mut Reader<HookLaw>,
    kept: &mut KeptHead,
    store: &HookStore,
    hook: Hook,
    into: &mut HeadRoom,
) -> Point
    requires store { IsSeatOf store.now reader.old.place }
    requires shape { (store.now.shape.words ≡ block_words) × (ROOTS ≤ store.now.shape.roots) }
    requires inside { IsInside reader.old.place }
    requires kept { IsKept (seen_by reader.old.place) (head_root hook) kept.old }
    ensures store { IsSeatOf store.now reader.new.place }
    ensures same { IsSameReader reader.old.place reader.new.place }
    ensures longer { IsPrefix (seen_by reader.old.place) (seen_by reader.new.place) }
    ensures lawful { Keeps hook_meaning hook_codec (seen_by reader.new.place)
        (floor_start reader.new.place) }
    ensures stamp { result ≡ (root_of (seen_by reader.new.place) (head_root hook)).stamp }
    ensures told { HeadTold (λ k. heads_after (seen_by reader.new.place) k hook)
        (seen_by reader.new.place) hook into.new.tables result }
    ensures kept { IsKept (seen_by reader.new.place) (head_root hook) kept.new }
{
    let word = load_word(reader, store, root_for(hook));
    if word.first.is_some() && word.stamp == kept.stamp() {
        kept.tell(into);
        return word.stamp;
    }
    let stamp = read_head(reader, store, hook, into);
    kept.keep(stamp, into);
    stamp
}

/// Tells the tables of a hook, from what was kept of them where the root's word is the one that was read
/// last.
pub(crate) fn tell_hook(
    reader: &mut Reader<HookLaw>,
    ingress: &mut KeptHead,
    egress: &mut KeptHead,
    store: &HookStore,
    hook: Hook,
    into: &mut HeadRoom,
) -> Point
    requires store { IsSeatOf store.now reader.old.place }
    requires shape { (store.now.shape.words ≡ block_words) × (ROOTS ≤ store.now.shape.roots) }
    requires inside { IsInside reader.old.place }
    requires kept { KeepsHeads (seen_by reader.old.place) ingress.old egress.old }
    ensures store { IsSeatOf store.now reader.new.place }
    ensures same { IsSameReader reader.old.place reader.new.place }
    ensures longer { IsPrefix (seen_by reader.old.place) (seen_by reader.new.place) }
    ensures lawful { Keeps hook_meaning hook_codec (seen_by reader.new.place)
        (floor_start reader.new.place) }
    ensures stamp { result ≡ (root_of (seen_by reader.new.place) (head_root hook)).stamp }
    ensures told { HeadTold (λ k. heads_after (seen_by reader.new.place) k hook)
        (seen_by reader.new.place) hook into.new.tables result }
    ensures kept { KeepsHeads (seen_by reader.new.place) ingress.new egress.new }
{
    match hook {
        Hook::Ingress => tell_head(reader, ingress, store, hook, into),
        Hook::Egress => tell_head(reader, egress, store, hook, into),
    }
}
