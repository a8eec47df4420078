//! Waiting for no one: an epoch begins, and the readers are looked at once or twice.
ghost use Rattle.std.specs.Prelude.{◌≡◌, ◌<◌, ◌≤◌, ◌+◌, ◌^◌, length};
ghost use Rattle.pin_store.specs.declared.scan.Scan.TheVariants.{Quiet};
ghost use Rattle.pin_store.specs.Sheets.{base_of};
ghost use Rattle.pin_store.specs.Calls.{seen_by, sheet_of, IsSeatOf};
ghost use Rattle.pin_store.specs.Found.{FoundIn};
ghost use Rattle.desk_pools.specs.OfTidying.Tidied.{IsTwiceIn};

use pin_store::{Scan, Store, Writer};
use std::hint::spin_loop;
use store_history::Law;

// How often the processor is told to pause: some microseconds, in which most walks end.
const PAUSES: u32 = 128;

// Lets a moment pass.
fn pause() {
    for _ in 0..PAUSES {
        spin_loop();
    }
}

/// Begins an epoch, and scans the readers. Where a reader was inside it scans them once more a moment later,
/// as else readers that walk without a pause would hardly ever be found outside, all of them. Where it is
/// quiet the base is the number of all commits. Else it names the first reader that is in the way, which was
/// seen twice inside with the same pin.
pub fn settle<L: Law>(writer: &mut Writer<L>, store: &Store<L>) -> Scan
    requires store { IsSeatOf store.now writer.old.place }
    requires few { (sheet_of writer.old.place).epoch < 2 ^ 62 }
    ensures store { IsSeatOf store.now writer.new.place }
    ensures seen { seen_by writer.new.place ≡ seen_by writer.old.place }
    ensures cells { (sheet_of writer.new.place).cells ≡ (sheet_of writer.old.place).cells }
    ensures epoch { (sheet_of writer.new.place).epoch ≡ (sheet_of writer.old.place).epoch + 1 }
    ensures quiet { result ≡ Quiet
        → base_of (sheet_of writer.new.place) ≡ length (seen_by writer.old.place) }
    ensures risen { base_of (sheet_of writer.old.place) ≤ base_of (sheet_of writer.new.place) }
    ensures low { base_of (sheet_of writer.new.place) ≤ length (seen_by writer.new.place) }
    ensures twice { IsTwiceIn (sheet_of writer.new.place).notes result }
    ensures found { FoundIn (sheet_of writer.new.place).notes result }
{
    writer.bump(store);
    match writer.scan(store) {
        Scan::Quiet => Scan::Quiet,
        Scan::Pinned { .. } => {
            pause();
            writer.scan(store)
        }
    }
}
