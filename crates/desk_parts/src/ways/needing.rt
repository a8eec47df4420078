//! What an edit needs that is done in some way.
ghost use Rattle.std.specs.Prelude.{◌≡◌, ◌≤◌, ◌+◌, ◌/◌};
ghost use Rattle.flow_mask.specs.Sizes.{size_of};
ghost use Rattle.filter_state.specs.declared.limits.TheConstants.{FILTERS_MAX, LINE_ACTIONS_MAX};
ghost use Rattle.store_history.specs.declared.places.TheConstants.{ROW_BUCKETS};
ghost use Rattle.desk_needs.specs.OfEditNeeds.Told.{blocks_anew, rows_anew, laid, laid_rows, laid_masks, moved_to};
ghost use Rattle.desk_parts.specs.OfWays.Ways.{AreFew, needs_by};

use crate::ways::way::Way;
use desk_needs::Needs;
use flow_mask::size_for;
use store_history::places::ROW_BUCKETS;
use tc_base::Hook;

const NOTHING: Needs = Needs {
    blocks: 0,
    rows: 0,
    masks: 0,
    actions: 0,
    head: None,
};

// Blocks and rows for a mask that had so many filters and gets so many: it is laid anew where these ask for
// another number of buckets.
fn anew(before: u32, after: u32) -> (u32, u32)
    requires { after ≤ FILTERS_MAX + 1 }
    ensures told { (result.0 ≡ blocks_anew before after) × (result.1 ≡ rows_anew before after) }
    ensures few { (result.0 ≤ FILTERS_MAX + 2) × (result.1 ≤ 64) }
{
    let size = size_for(after);
    if size == size_for(before) {
        (0, 0)
    } else {
        (after + 1, size / ROW_BUCKETS)
    }
}

// A mask that is laid anew whole with so many filters, where it has any.
fn whole(count: u32) -> Needs
    requires { count ≤ FILTERS_MAX + 1 }
    ensures blocks { result.blocks ≡ laid count }
    ensures rows { result.rows ≡ laid_rows count }
    ensures masks { result.masks ≡ laid_masks count }
    ensures few { (result.blocks ≤ FILTERS_MAX + 2) × (result.rows ≤ 64) × (result.masks ≤ 1) }
{
    if count == 0 {
        return NOTHING;
    }
    Needs {
        blocks: count + 1,
        rows: size_for(count) / ROW_BUCKETS,
        masks: 1,
        ..NOTHING
    }
}

// A filter moves: its masks have so many filters afterwards.
fn moved(hook: Hook, made: u32, to: u32, from: u32) -> Needs
    requires few { (to ≤ FILTERS_MAX + 1) × (from ≤ FILTERS_MAX) × (made ≤ LINE_ACTIONS_MAX) }
    ensures { result ≡ moved_to hook made to from }
{
    let (to, from) = (whole(to), whole(from));
    Needs {
        blocks: made + to.blocks + from.blocks,
        rows: to.rows + from.rows,
        masks: to.masks + from.masks,
        actions: made,
        head: Some(hook),
    }
}

impl Way {
    /// What the edit needs, with so many actions that it makes.
    pub fn needs(&self, made: u32) -> Needs
        requires few { AreFew self.now × (made ≤ LINE_ACTIONS_MAX) }
        ensures { result ≡ needs_by made self.now }
    {
        match *self {
            Way::IntoMask { count, .. } => {
                let (blocks, rows) = anew(count, count + 1);
                Needs {
                    blocks: made + 1 + blocks,
                    rows,
                    actions: made,
                    ..NOTHING
                }
            }
            Way::WithMask { hook } => Needs {
                blocks: made + 2,
                rows: 1,
                masks: 1,
                actions: made,
                head: Some(hook),
            },
            Way::InPlace { later, .. } => Needs {
                blocks: made + later + 1,
                actions: made,
                ..NOTHING
            },
            Way::OtherKey { hook, count, .. } => moved(hook, made, count, 0),
            Way::OtherMask {
                hook,
                count,
                others,
                ..
            } => moved(hook, made, others + 1, count - 1),
            Way::OutOfMask { count, later, .. } => {
                let (blocks, rows) = anew(count, count - 1);
                Needs {
                    blocks: later + blocks,
                    rows,
                    ..NOTHING
                }
            }
            Way::Closes { hook } => Needs {
                head: Some(hook),
                ..NOTHING
            },
        }
    }
}
