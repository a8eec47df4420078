//! A worker of a run.

use hook_reader::HookReader;
use walk_steps::Walk;

/// A worker: its number, from 1, its reader of the hook, and its room for a walk.
#[derive(Drop)]
pub struct Worker {
    pub number: u32,
    pub reader: HookReader,
    pub walk: Walk,
}
