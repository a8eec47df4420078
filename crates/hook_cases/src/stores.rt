//! The store between threads. What each test finds is the same whatever the schedule.
ghost use Rattle.std.specs.Prelude.{◌≡◌, ◌^◌, ◌<◌, []};
ghost use Rattle.pin_store.specs.Calls.{seen_by, pin_of, IsSeatOf, IsInside, IsOutside};

use pin_store::{Reader, Receipt, RootWord, Scan, Shape, Steps, Store, Writer, make_store};
use std::marker::Brand;
use std::sync::ledger::{Blank, Ledger};
use std::test::Fail;
use std::thread;
use store_history::{EditName, Law};

const SHAPE: Shape = Shape {
    blocks: 8,
    words: 40,
    roots: 4,
    readers: 2,
};

struct Edit {
    value: u64,
}

// The law that asks for nothing.
struct Anything;

impl Law for Anything {
    type Entry = Edit;

    ghost keeps = { λ h b. Unit {0} };

    ghost opens = { tt };

    ghost rises = { λ h b c le k. k };
}

impl EditName<Edit> for Brand {
    ghost edit = { record { value = 5 } };
}

#[test]
fn readers_are_numbered(rt: HostRuntime) -> Result<(), Fail> {
    let (_store, _writer, mut readers) = make_store::<Anything>(rt.alloc(), SHAPE)?;
    for want in [Some(1), Some(2), None] {
        let number = readers.take().map(|reader| reader.number());
        assert!(rt; number == want);
    }
    Ok(())
}

fn load_as<M: Ledger>(
    store: &Store<Anything>,
    reader: &mut Reader<Anything>,
    blank: Blank,
) -> (RootWord, Option<u64>)
    requires store { IsSeatOf store.now reader.old.place × (2 < store.now.shape.roots)
        × (0 < store.now.shape.words) }
    requires inside { IsInside reader.old.place }
    requires blank { (blank.name ≡ M.name) × (blank.parts ≡ M.parts) × (0 < M.parts) }
    ensures store { IsSeatOf store.now reader.new.place }
    ensures inside { IsInside reader.new.place }
{
    let mut steps = Steps::<M>::new(blank);
    let root = reader.load_root(store, 2, &mut steps);
    let word = match root.first {
        Some(block) => Some(reader.load_word(store, block, 0, &mut steps)),
        None => None,
    };
    (root, word)
}

// What root 2 names for a reader that learnt the receipt, and the first word of its first block.
fn look(
    store: &Store<Anything>,
    mut reader: Reader<Anything>,
    receipt: Receipt<Anything>,
) -> (RootWord, Option<u64>)
    requires store { IsSeatOf store.now reader.place × (store.now.shape ≡ SHAPE) }
    requires receipt { IsSeatOf store.now receipt.place }
    requires outside { IsOutside reader.place × (pin_of reader.place < 2 ^ 63) }
{
    reader.learn(store, receipt);
    reader.enter(store);
    let found = load_as::<Brand>(store, &mut reader, Blank::new(1));
    reader.leave(store);
    found
}

// A receipt of two commits. The second names block 3 by root 2, with the stamp 7.
fn commit_twice(store: &Store<Anything>, writer: &mut Writer<Anything>) -> Receipt<Anything>
    requires store { IsSeatOf store.now writer.old.place × (store.now.shape ≡ SHAPE) }
    requires new { seen_by writer.old.place ≡ [] }
    ensures { IsSeatOf store.now result.place }
{
    let mut words = [0; 40];
    words[0] = 5;
    writer.fill(store, 3, &words);
    writer.commit::<Brand>(store, 1, &[], 1, Some(1));
    writer.commit::<Brand>(store, 2, &[3], 7, Some(2));
    writer.receipt(store)
}

#[test]
fn a_reader_sees_what_it_learnt(rt: HostRuntime) -> Result<(), Fail> {
    let (store, mut writer, mut readers) = make_store::<Anything>(rt.alloc(), SHAPE)?;
    let receipt = commit_twice(&store, &mut writer);
    if let Some(reader) = readers.take() {
        let (found, _) = thread::join(&rt, || look(&store, reader, receipt), || ());
        assert!(rt;
            found.0
                == RootWord {
                    first: Some(3),
                    stamp: 7
                }
        );
        assert!(rt; found.1 == Some(5));
    }
    Ok(())
}

fn enter(store: &Store<Anything>, mut reader: Reader<Anything>) -> Reader<Anything>
    requires store { IsSeatOf store.now reader.place }
    requires outside { IsOutside reader.place × (pin_of reader.place < 2 ^ 63) }
    ensures store { IsSeatOf store.now result.place }
    ensures inside { IsInside result.place }
{
    reader.enter(store);
    reader
}

fn leave(store: &Store<Anything>, mut reader: Reader<Anything>) -> Reader<Anything>
    requires store { IsSeatOf store.now reader.place }
    requires inside { IsInside reader.place }
    ensures store { IsSeatOf store.now result.place }
{
    reader.leave(store);
    reader
}

#[test]
fn a_reader_inside_pins_the_store(rt: HostRuntime) -> Result<(), Fail> {
    let (store, mut writer, mut readers) = make_store::<Anything>(rt.alloc(), SHAPE)?;
    if let Some(reader) = readers.take() {
        let (reader, _) = thread::join(&rt, || enter(&store, reader), || ());
        writer.bump(&store);
        assert!(rt; writer.scan(&store) == Scan::Pinned { reader: 1, pin: 1 });
        let (mut reader, _) = thread::join(&rt, || leave(&store, reader), || ());
        assert!(rt; writer.scan(&store) == Scan::Quiet);
        writer.meet(&store, &mut reader);
    }
    Ok(())
}
