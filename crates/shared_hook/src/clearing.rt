//! Room is made for an edit.
ghost use Rattle.std.specs.Prelude.{◌+◌, ◌<◌, ◌^◌};
ghost use Rattle.pin_store.specs.Calls.{sheet_of, IsSeatOf};
ghost use Rattle.desk_parts.specs.Desk.{IsDesk};
ghost use Rattle.shared_hook.specs.Begun.{CanHave, HasAll, IsCleared, HasRoomOr};

use crate::counts::PoolCounts;
use crate::short::{Short, short_pool};
use desk_needs::Needs;
use desk_parts::Parts;
use hook_store_law::HookStore;
use pin_store::Scan;

/// A pool that is short, and the reader in the way, with its pin.
#[derive(Clone, Copy)]
pub(crate) struct Hindrance {
    pub short: Short,
    pub reader: u32,
    pub pin: u64,
}

// Tidies, and looks again whether a pool is short.
fn tidy_for(parts: &mut Parts, store: &HookStore, needs: &Needs) -> Option<Hindrance>
    requires store { IsSeatOf store.now parts.old.ledger.writer.place }
    requires desk { IsDesk parts.old }
    requires few { (sheet_of parts.old.ledger.writer.place).epoch + 1 < 2 ^ 62 }
    requires can { CanHave parts.old needs.now }
    requires lacks { HasAll parts.old needs.now → ⊥ }
    ensures store { IsSeatOf store.now parts.new.ledger.writer.place }
    ensures cleared { IsCleared parts.old parts.new needs.now }
    ensures room { HasRoomOr parts.old parts.new needs.now result }
{
    let scan = parts.tidy(store);
    let short = short_pool(&PoolCounts::free_in(&parts.pools), needs)?;
    match scan {
        Scan::Pinned { reader, pin } => Some(Hindrance { short, reader, pin }),
        Scan::Quiet => unreachable!(),
    }
}

/// Sees to it that each pool has what is needed: where one is short, it tidies. It tells which pool is short
/// still, and a reader in the way.
pub(crate) fn make_room(parts: &mut Parts, store: &HookStore, needs: &Needs) -> Option<Hindrance>
    requires store { IsSeatOf store.now parts.old.ledger.writer.place }
    requires desk { IsDesk parts.old }
    requires few { (sheet_of parts.old.ledger.writer.place).epoch + 1 < 2 ^ 62 }
    requires can { CanHave parts.old needs.now }
    ensures store { IsSeatOf store.now parts.new.ledger.writer.place }
    ensures cleared { IsCleared parts.old parts.new needs.now }
    ensures room { HasRoomOr parts.old parts.new needs.now result }
{
    short_pool(&PoolCounts::free_in(&parts.pools), needs)?;
    tidy_for(parts, store, needs)
}
