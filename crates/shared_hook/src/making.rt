//! A new hook.
ghost use Rattle.std.specs.Prelude.{◌≡◌, ◌++◌, ℕ, [], map, All, IfOk};
ghost use Rattle.block_codec.specs.declared.places.TheConstants.{READERS};
ghost use Rattle.pin_store.specs.Layout.{numbers_to};
ghost use Rattle.pin_store.specs.Calls.{seen_by, sheet_of, number_of, IsSeatOf, IsNewReader};
ghost use Rattle.filter_state.specs.States.{no_state};
ghost use Rattle.filter_lists.specs.Spells.{Spells};
ghost use Rattle.desk_needs.specs.declared.pool.Pool.{Pool};
ghost use Rattle.desk_parts.specs.Desk.{hook_shape};
ghost use Rattle.shared_hook.specs.Views.{count_of, IsUnused};

use crate::desk::Desk;
use crate::passes::Passes;
use desk_parts::{HOOK_SHAPE, Parts};
use hook_reader::HookReader;
use hook_store_law::{HookLaw, HookStore};
use pin_store::{Readers, make_store};
use std::alloc::Global;
use std::collections::VecDeque;
use tc_base::NoMemory;

/// A hook without a qdisc: its store, the desk that edits it, and its eight readers, of which none was inside
/// yet. It takes all the memory of the store and of the readers.
///
/// `NoMemory`: memory was refused.
pub fn make_hook(alloc: Global) -> Result<(HookStore, Desk, Passes), NoMemory>
    ensures shape { IfOk result (λ made. made.0.shape ≡ hook_shape) }
    ensures desk { IfOk result (λ made. IsSeatOf made.0 made.1.place) }
    ensures new { IfOk result (λ made. (seen_by made.1.place ≡ []) × Spells made.1.lists no_state
        × ((sheet_of made.1.place).epoch ≡ 0) × ((pool : Pool) → count_of made.1.left pool ≡ 0)) }
    ensures readers { IfOk result (λ made. All (λ r. IsNewReader made.0 r.place) made.2.left.items) }
    ensures numbers { IfOk result (λ made. map (λ r. number_of r.place) made.2.left.items
        ≡ numbers_to READERS) }
    ensures unused { IfOk result (λ made. All IsUnused made.2.left.items) }
{
    let (store, writer, readers) = make_store::<HookLaw>(alloc, HOOK_SHAPE)?;
    let parts = match Parts::new(alloc, writer) {
        Ok(parts) => parts,
        Err(memory) => {
            // Here and below in one call: part by part it is long to prove.
            drop((store, readers));
            return Err(memory);
        }
    };
    let left = match readers_of(alloc, &store, readers) {
        Ok(left) => left,
        Err(memory) => {
            drop((store, parts));
            return Err(memory);
        }
    };
    Ok((store, Desk { parts, alloc }, Passes { left }))
}

// The readers of a hook, made of the new readers of its store.
fn readers_of(
    alloc: Global,
    store: &HookStore,
    mut readers: Readers<HookLaw>,
) -> Result<VecDeque<HookReader>, NoMemory>
    requires readers { All (λ r. IsNewReader store.now r.place) readers.left.items }
    ensures readers { IfOk result (λ left. All (λ r. IsNewReader store.now r.place) left.items) }
    ensures numbers { IfOk result (λ left. map (λ r. number_of r.place) left.items
        ≡ map (λ r. number_of r.place) readers.left.items) }
    ensures unused { IfOk result (λ left. All IsUnused left.items) }
{
    let mut left = VecDeque::with_capacity(alloc, readers.left.len())?;
    while let Some(reader) = readers.take() {
        left.push_back(HookReader::new(alloc, reader)?)?;
    }
    Ok(left)
}
