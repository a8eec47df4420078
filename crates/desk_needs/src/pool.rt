//! The names of the pools.

use tc_base::Hook;

/// A pool of a hook's store: what an edit takes, and what may be taken again once no reader can come to it.
/// Where several are short, the first in this order is told.
#[derive(Clone, Copy, Debug, PartialEq, Eq)]
pub enum Pool {
    /// The blocks of filters, masks and actions, `POOL_BLOCKS`.
    Blocks,
    /// The rows of sixteen buckets, `ROWS`.
    Rows,
    /// The slots of masks, `MASK_SLOTS`.
    MaskRoots,
    /// The slots of actions, `ACTION_SLOTS`.
    ActionRoots,
    /// The places of a hook's tables: 2, of which one is active.
    Head(Hook),
}
