//! How many of each pool.
ghost use Rattle.std.specs.Prelude.{◌≡◌};
ghost use Rattle.std.specs.Prelude.{if◌then◌else◌};
ghost use Rattle.shared_hook.specs.Views.{count_of, free_in, left_in};

use desk_needs::Pool;
use desk_pools::Pools;
use tc_base::Hook;

/// A number for each pool.
#[derive(Clone, Copy, Debug, PartialEq, Eq)]
pub struct PoolCounts {
    pub blocks: u32,
    pub rows: u32,
    pub masks: u32,
    pub actions: u32,
    pub ingress: u32,
    pub egress: u32,
}

// How many of the two places of a hook's tables are free: the idle one, or none.
fn free_place(is_free: bool) -> u32
    ensures { result ≡ (if is_free then 1 else 0) }
{
    u32::from(is_free)
}

impl PoolCounts {
    /// Those that are free.
    pub(crate) fn free_in(pools: &Pools) -> PoolCounts
        ensures { result ≡ free_in pools.now }
    {
        PoolCounts {
            blocks: pools.blocks.free(),
            rows: pools.rows.free(),
            masks: pools.masks.free(),
            actions: pools.actions.free(),
            ingress: free_place(pools.ingress.is_free),
            egress: free_place(pools.egress.is_free),
        }
    }

    /// Those that left and aren't free yet.
    pub(crate) fn left_in(pools: &Pools) -> PoolCounts
        ensures { result ≡ left_in pools.now }
    {
        PoolCounts {
            blocks: pools.blocks.left(),
            rows: pools.rows.left(),
            masks: pools.masks.left(),
            actions: pools.actions.left(),
            ingress: 1 - free_place(pools.ingress.is_free),
            egress: 1 - free_place(pools.egress.is_free),
        }
    }

    /// That of one pool.
    pub fn of(&self, pool: Pool) -> u32
        ensures { result ≡ count_of self.now pool }
    {
        match pool {
            Pool::Blocks => self.blocks,
            Pool::Rows => self.rows,
            Pool::MaskRoots => self.masks,
            Pool::ActionRoots => self.actions,
            Pool::Head(Hook::Ingress) => self.ingress,
            Pool::Head(Hook::Egress) => self.egress,
        }
    }
}
