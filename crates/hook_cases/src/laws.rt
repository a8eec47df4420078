//! A store with the hook's law, before any commit.
ghost use Rattle.std.specs.Prelude.{◌≡◌, ◌<◌, ◌^◌, List};
ghost use Rattle.store_history.specs.declared.history.Commit.{Commit};
ghost use Rattle.filter_state.specs.declared.edit.Edit.{Edit};
ghost use Rattle.pin_store.specs.Calls.{pin_of, IsInside, IsOutside, IsSeatOf};
ghost use Rattle.kept_records.specs.Keeping.{KeepsRecords};

use crate::readers::SHAPE;
use flow_fields::Key;
use hook_store_law::HookLaw;
use kept_records::HookRecords;
use miniq_pair::head;
use pin_store::{Reader, Steps, Store, make_store};
use std::marker::Brand;
use std::sync::ledger::{Blank, Ledger};
use std::test::Fail;
use tc_base::{Hook, Point};
use visit_room::{HeadRoom, Hit};

fn visit_as<M: Ledger>(
    store: &Store<HookLaw>,
    reader: &mut Reader<HookLaw>,
    room: &mut HeadRoom,
    mut kept: HookRecords,
    blank: Blank,
) -> (Point, bool)
    requires store { IsSeatOf store.now reader.old.place × (store.now.shape ≡ SHAPE) }
    requires inside { IsInside reader.old.place }
    requires kept { (h : List (Commit Edit)) → KeepsRecords h kept }
    requires blank { (blank.name ≡ M.name) × (blank.parts ≡ M.parts) × (0 < M.parts) }
    ensures store { IsSeatOf store.now reader.new.place }
    ensures inside { IsInside reader.new.place }
{
    let mut steps = Steps::<M>::new(blank);
    let point = head(reader, store, Hook::Ingress, room, &mut steps);
    let key = Key { words: [0; 14] };
    let (found, _) = kept.look(reader, store, 0, &key, &mut Hit::new(), &mut steps);
    (point, found)
}

// The point of what a reader is told of the ingress hook, and whether the mask at slot 0 has a filter.
fn visit(
    store: &Store<HookLaw>,
    mut reader: Reader<HookLaw>,
    room: &mut HeadRoom,
    kept: HookRecords,
) -> (Point, bool)
    requires store { IsSeatOf store.now reader.place × (store.now.shape ≡ SHAPE) }
    requires outside { IsOutside reader.place × (pin_of reader.place < 2 ^ 63) }
    requires kept { (h : List (Commit Edit)) → KeepsRecords h kept }
{
    reader.enter(store);
    let told = visit_as::<Brand>(store, &mut reader, room, kept, Blank::new(1));
    reader.leave(store);
    told
}

#[test]
fn a_new_hook_has_nothing(rt: HostRuntime) -> Result<(), Fail> {
    let mut room = HeadRoom::with_room(rt.alloc())?;
    let kept = HookRecords::with_room(rt.alloc())?;
    let (store, _writer, mut readers) = make_store::<HookLaw>(rt.alloc(), SHAPE)?;
    if let Some(reader) = readers.take() {
        let told = visit(&store, reader, &mut room, kept);
        assert!(rt; told == (0, false));
        assert!(rt; room.heads().is_empty());
    }
    Ok(())
}
