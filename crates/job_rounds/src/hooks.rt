//! A hook with as many readers as a job has workers.
ghost use Rattle.block_codec.specs.declared.places.TheConstants.{READERS};
ghost use Rattle.std.specs.Prelude.{◌≡◌, ◌+◌, ◌≤◌, ◌++◌, length, vec_len, vec_capacity, IfOk};
ghost use Rattle.job_rounds.specs.Hooks.{AreNewHooks};

use crate::round_state::Desk;
use hook_reader::HookReader;
use hook_store_law::HookStore;
use shared_hook::{Passes, make_hook};
use std::alloc::Global;
use tc_base::NoMemory;

/// A hook's store, the desk that edits it, and readers of it.
#[derive(Drop)]
pub struct Hooks {
    pub store: HookStore,
    pub desk: Desk,
    pub readers: Vec<HookReader>,
}

// Takes so many readers of a hook that has as many left.
fn take_readers(passes: &mut Passes, readers: &mut Vec<HookReader>, count: u32)
    requires left { count ≤ length passes.old.left.items }
    requires room { vec_len readers.old + count ≤ vec_capacity readers.old }
    ensures taken { readers.new.items ++ passes.new.left.items ≡ readers.old.items ++ passes.old.left.items }
    ensures many { length readers.new.items ≡ length readers.old.items + count }
{
    for _ in 0..count {
        let Some(reader) = passes.take() else {
            unreachable!()
        };
        readers.push_reserved(reader);
    }
}

/// A new hook for 1 to 8 workers: its journal is empty, and none of its readers was inside yet.
///
/// `NoMemory`: memory was refused.
pub fn make_hooks(alloc: Global, workers: u32) -> Result<Hooks, NoMemory>
    requires { (1 ≤ workers) × (workers ≤ READERS) }
    ensures { IfOk result (AreNewHooks workers) }
{
    let mut readers = Vec::with_capacity(alloc, workers as usize)?;
    let (store, desk, mut passes) = make_hook(alloc)?;
    take_readers(&mut passes, &mut readers, workers);
    Ok(Hooks {
        store,
        desk,
        readers,
    })
}
