//! The first head of a walk.
ghost use Rattle.std.specs.Prelude.{◌≡◌, length, true};
ghost use Rattle.pin_store.specs.Calls.{seen_by};

use hook_store_law::HookLaw;
use pin_store::Reader;
use std::snapshot::Snapshot;
use tc_base::Point;

/// The first head that a walk visited: its point, and whether no other was visited since. The reader as it
/// then was is there for contracts alone, and takes no bytes.
#[derive(Drop)]
pub(crate) struct HeadSeen {
    pub(crate) point: Point,
    pub(crate) is_alone: bool,
    pub(crate) reader: Snapshot<Reader<HookLaw>>,
}
