//! The walk of a packet.
ghost use Rattle.store_history.specs.declared.places.TheConstants.{ROOTS};
ghost use Rattle.frame_edit.specs.declared.limits.TheConstants.{FRAME_MAX};
ghost use Rattle.std.specs.Prelude.{◌≡◌, ◌≤◌, ◌<◌, ◌+◌, ◌^◌, length, None};
ghost use Rattle.pin_store.specs.Calls.{IsInside, IsOutside, IsSeatOf, number_of, pin_of};
ghost use Rattle.block_chain.specs.Ways.{block_words};
ghost use Rattle.worker_rounds.specs.OfWalks.Walked.{IsWalkedBy};

use crate::walks::gated::Gated;
use crate::walks::packet_name::PacketName;
use hook_reader::{HookReader, Walking};
use hook_store_law::HookStore;
use tc_base::{Gate, Hook};
use walk_steps::{Walk, run};

// Takes a walk from its beginning to its end.
fn walk_gated<G: Gate>(walk: &mut Walk, visits: &mut Gated<'_, G>, hook: Hook, bytes: &[u8])
    requires short { length bytes.now ≤ FRAME_MAX }
    requires first { visits.old.walking.reader.now.head ≡ None }
    ensures store { visits.new.walking.store ≡ visits.old.walking.store }
    ensures same { visits.new.walking.reader.ghost_name ≡ visits.old.walking.reader.ghost_name }
    ensures pin { (number_of visits.new.walking.reader.now.place ≡ number_of visits.old.walking.reader.now.place)
        × (pin_of visits.new.walking.reader.now.place ≡ pin_of visits.old.walking.reader.now.place) }
    ensures walked { IsWalkedBy visits.old.walking.reader.now visits.new.walking.reader.now hook
        bytes.now walk.new }
{
    walk.begin(hook, bytes);
    run(walk, visits);
}

// Walks at a reader that is inside.
fn walk_inside<'a, G: Gate>(
    walk: &mut Walk,
    store: &'a HookStore,
    reader: &'a mut HookReader,
    gates: &'a G,
    name: PacketName,
    hook: Hook,
    bytes: &[u8],
)
    requires short { length bytes.now ≤ FRAME_MAX }
    requires store { IsSeatOf store.now reader.old.place }
    requires shape { (store.now.shape.words ≡ block_words) × (ROOTS ≤ store.now.shape.roots) }
    requires inside { IsInside reader.old.place }
    requires first { reader.old.head ≡ None }
    ensures store { IsSeatOf store.now reader.new.place }
    ensures inside { IsInside reader.new.place }
    ensures pin { (number_of reader.new.place ≡ number_of reader.old.place)
        × (pin_of reader.new.place ≡ pin_of reader.old.place) }
    ensures walked { IsWalkedBy reader.old reader.new hook bytes.now walk.new }
{
    let mut visits = Gated {
        walking: Walking { store, reader },
        gates,
        name,
        visit: 0,
    };
    walk_gated(walk, &mut visits, hook, bytes);
}

/// Walks a packet of at most 262,144 bytes through a hook: the reader goes inside, and leaves when the walk
/// has ended.
///
/// Over the edits that the reader has then seen it is a walk with a visit at each of its points, and these
/// are lawful: the first is no earlier than any point or receipt that the reader had seen before.
pub fn walk_packet<G: Gate>(
    walk: &mut Walk,
    store: &HookStore,
    reader: &mut HookReader,
    gates: &G,
    name: PacketName,
    hook: Hook,
    bytes: &[u8],
)
    requires short { length bytes.now ≤ FRAME_MAX }
    requires store { IsSeatOf store.now reader.old.place }
    requires shape { (store.now.shape.words ≡ block_words) × (ROOTS ≤ store.now.shape.roots) }
    requires outside { IsOutside reader.old.place }
    requires few { pin_of reader.old.place < 2 ^ 63 }
    ensures store { IsSeatOf store.now reader.new.place }
    ensures outside { IsOutside reader.new.place }
    ensures pin { (number_of reader.new.place ≡ number_of reader.old.place)
        × (pin_of reader.new.place ≡ pin_of reader.old.place + 2) }
    ensures walked { IsWalkedBy reader.old reader.new hook bytes.now walk.new }
{
    reader.enter_walk(store);
    walk_inside(walk, store, reader, gates, name, hook, bytes);
    reader.leave_walk(store);
}
