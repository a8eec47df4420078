//! The memory for an edit of filters.
ghost use Rattle.std.specs.Prelude.{◌≡◌, ◌≢◌, ◌≤◌, [], vec_capacity, IfOk};
ghost use Rattle.desk_parts.specs.OfWays.Ways.{AreFew};
ghost use Rattle.shared_hook.specs.OfDeskEdits.Spent.{HasRoom};
ghost use Rattle.shared_hook.specs.OfPlans.Plans.{HasMeans, HaveFilters};

use crate::desk_edits::Room;
use crate::desk_edits::moves::MaskRoom;
use desk_parts::ways::Way;
use std::alloc::Global;
use tc_base::NoMemory;

/// The serials of actions that may go with an edit, and room for what it takes at first and then.
#[derive(Drop)]
pub struct Means {
    pub gone: Vec<u32>,
    pub first: MaskRoom,
    pub second: MaskRoom,
}

// Room for all the blocks and rows that are needed, and for so many filters.
fn room_for(alloc: Global, blocks: u32, rows: u32, filters: u32) -> Result<MaskRoom, NoMemory>
    ensures numbers { IfOk result (λ room. HasRoom room.numbers blocks rows) }
    ensures filters { IfOk result (λ room. (room.filters.items ≡ [])
        × (filters ≤ vec_capacity room.filters)) }
{
    Ok(MaskRoom {
        numbers: Room {
            blocks: Vec::with_capacity(alloc, blocks as usize)?,
            rows: Vec::with_capacity(alloc, rows as usize)?,
        },
        filters: Vec::with_capacity(alloc, filters as usize)?,
    })
}

// How many filters the masks have that are laid anew whole: the one into which a filter goes, and the one
// that it leaves.
fn laid_filters(way: &Way) -> (u32, u32)
    requires few { AreFew way.now }
    ensures { HaveFilters way.now result.0 result.1 }
{
    match *way {
        Way::OtherKey { count, .. } => (count, 0),
        Way::OtherMask { count, others, .. } => (others + 1, count - 1),
        _ => (0, 0),
    }
}

// The blocks that are needed, where rows are: without a row nothing is laid anew.
fn blocks_with_rows(blocks: u32, rows: u32) -> u32
    ensures { rows ≢ 0 → result ≡ blocks }
{
    if rows == 0 { 0 } else { blocks }
}

impl Means {
    /// All the memory for an edit that is done in this way.
    ///
    /// `NoMemory`: memory was refused.
    pub fn new(alloc: Global, gone: Vec<u32>, way: &Way) -> Result<Means, NoMemory>
        requires few { AreFew way.now }
        ensures gone { IfOk result (λ means. means.gone ≡ gone) }
        ensures room { IfOk result (HasMeans way.now) }
    {
        let needs = way.needs(0);
        let (to, from) = laid_filters(way);
        let again = blocks_with_rows(needs.blocks, needs.rows);
        // What is laid anew is part of the whole, so room for the whole is enough for each.
        Ok(Means {
            gone,
            first: room_for(alloc, needs.blocks, needs.rows, to)?,
            second: room_for(alloc, again, needs.rows, from)?,
        })
    }
}
