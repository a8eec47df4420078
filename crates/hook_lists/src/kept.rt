//! What the lists keep.

use act_kinds::Params;
use act_registry::Registry;
use filter_tables::FilterTables;
use std::alloc::Global;

/// The tables of the two hooks with their masks and filters, and the actions that filters share. `Lists` of
/// filter_lists holds one, and sees to it that it is whole.
#[derive(Drop)]
pub struct Kept {
    pub hooked: bool,
    pub ingress: FilterTables,
    pub egress: FilterTables,
    pub actions: Registry<Params>,
    /// How many tables were made so far.
    pub tables_made: u32,
    /// How many masks were made so far.
    pub masks_made: u32,
    /// How many filters there are on both hooks.
    pub filters: u32,
    pub alloc: Global,
}
