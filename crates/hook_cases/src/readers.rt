//! A reader of a hook's store before any commit.
ghost use Rattle.std.specs.Prelude.{◌≡◌, ◌<◌, ◌^◌};
ghost use Rattle.pin_store.specs.Calls.{pin_of, IsInside, IsOutside, IsSeatOf};

use block_codec::places::{BLOCK_WORDS, BLOCKS, READERS};
use hook_reader::{HookReader, HookReceipt, Walking};
use hook_store_law::{HookLaw, HookStore};
use pin_store::{Shape, make_store};
use std::test::Fail;
use store_history::places::ROOTS;
use tc_base::{Hook, Point};
use visit_room::HeadRoom;
use walk_steps::Visits;

/// The shape of a hook's store.
pub const SHAPE: Shape = Shape {
    blocks: BLOCKS,
    words: BLOCK_WORDS,
    roots: ROOTS,
    readers: READERS,
};

// The point of the head of the ingress hook.
fn ask(store: &HookStore, reader: &mut HookReader, room: &mut HeadRoom) -> Point
    requires store { IsSeatOf store.now reader.old.place × (store.now.shape ≡ SHAPE) }
    requires inside { IsInside reader.old.place }
    ensures store { IsSeatOf store.now reader.new.place }
    ensures inside { IsInside reader.new.place }
{
    let mut walking = Walking { store, reader };
    walking.head(Hook::Ingress, room)
}

// The same, in a walk of its own.
fn walk(store: &HookStore, reader: &mut HookReader, room: &mut HeadRoom) -> Point
    requires store { IsSeatOf store.now reader.old.place × (store.now.shape ≡ SHAPE) }
    requires outside { IsOutside reader.old.place × (pin_of reader.old.place < 2 ^ 63) }
    ensures store { IsSeatOf store.now reader.new.place }
    ensures outside { IsOutside reader.new.place }
{
    reader.enter_walk(store);
    let point = ask(store, reader, room);
    reader.leave_walk(store);
    point
}

#[test]
fn a_new_hook_answers_no_tables(rt: HostRuntime) -> Result<(), Fail> {
    let mut room = HeadRoom::with_room(rt.alloc())?;
    let (store, mut writer, mut readers) = make_store::<HookLaw>(rt.alloc(), SHAPE)?;
    if let Some(reader) = readers.take() {
        let mut reader = HookReader::new(rt.alloc(), reader)?;
        assert!(rt; walk(&store, &mut reader, &mut room) == 0);
        assert!(rt; room.heads().is_empty());
        assert!(rt; reader.visits() == 1);
        let receipt = HookReceipt {
            receipt: writer.receipt(&store),
            point: 0,
        };
        reader.learn(&store, receipt);
        assert!(rt; reader.visits() == 1);
    }
    Ok(())
}
