//! The records that a reader keeps.
ghost use Rattle.std.specs.Prelude.{replicate, IfOk, None, ◌≡◌};

use crate::known_filter::KnownFilter;
use crate::things::KeptThings;
use block_codec::{StoredAction, StoredMask};
use std::alloc::Global;
use tc_base::NoMemory;

/// Records of masks, filters that were found, and records of actions, each by the number and the stamp of its
/// root.
#[derive(Drop)]
pub struct HookRecords {
    pub masks: KeptThings<StoredMask>,
    pub filters: KeptThings<KnownFilter>,
    pub actions: KeptThings<StoredAction>,
}

impl HookRecords {
    ghost use Rattle.std.specs.Prelude.{ℕ, List, IfOk};
    ghost use Rattle.store_history.specs.declared.history.Commit.{Commit};
    ghost use Rattle.filter_state.specs.declared.edit.Edit.{Edit};
    ghost use Rattle.kept_records.specs.Keeping.{KeepsRecords};

    /// Takes the room, and keeps nothing. No other call takes memory.
    pub fn with_room(alloc: Global) -> Result<HookRecords, NoMemory>
        ensures { IfOk result (λ records. (h : List (Commit Edit)) → KeepsRecords h records) }
    {
        Ok(HookRecords {
            masks: KeptThings::with_room(alloc)?,
            filters: KeptThings::with_room(alloc)?,
            actions: KeptThings::with_room(alloc)?,
        })
    }
}
