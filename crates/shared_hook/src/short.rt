//! A pool that hasn't what an edit needs.
ghost use Rattle.std.specs.Prelude.{◌≡◌, ◌<◌, ◌≤◌, IfSome, None};
ghost use Rattle.desk_needs.specs.declared.pool.Pool.{Pool as APool};
ghost use Rattle.shared_hook.specs.Views.{count_of};
ghost use Rattle.shared_hook.specs.Short.{place_of, need_of, IsShort};

use crate::counts::PoolCounts;
use desk_needs::{Needs, Pool};
use tc_base::Hook;

// How many pools there are.
const POOLS: u32 = 6;

/// A pool, what is needed of it, and how many it has free, which are fewer.
#[derive(Clone, Copy)]
pub(crate) struct Short {
    pub pool: Pool,
    pub needed: u32,
    pub free: u32,
}

// The pool at a place of the order in which they are told.
fn pool_at(place: u32) -> Pool
    requires { place < 6 }
    ensures { place_of result ≡ place }
{
    match place {
        0 => Pool::Blocks,
        1 => Pool::Rows,
        2 => Pool::MaskRoots,
        3 => Pool::ActionRoots,
        4 => Pool::Head(Hook::Ingress),
        _ => Pool::Head(Hook::Egress),
    }
}

// What is needed of a pool.
fn need_of(needs: &Needs, pool: Pool) -> u32
    ensures { result ≡ need_of needs.now pool }
{
    match pool {
        Pool::Blocks => needs.blocks,
        Pool::Rows => needs.rows,
        Pool::MaskRoots => needs.masks,
        Pool::ActionRoots => needs.actions,
        Pool::Head(hook) => match needs.head {
            Some(changed) => u32::from(changed == hook),
            None => 0,
        },
    }
}

/// The first pool, in the order of the enum, that has fewer free than is needed.
pub(crate) fn short_pool(free: &PoolCounts, needs: &Needs) -> Option<Short>
    ensures short { IfSome result (IsShort free.now needs.now) }
    ensures enough { result ≡ None → (pool : APool) → need_of needs.now pool ≤ count_of free.now pool }
{
    for place in 0..POOLS {
        let pool = pool_at(place);
        let (needed, free) = (need_of(needs, pool), free.of(pool));
        if free < needed {
            return Some(Short { pool, needed, free });
        }
    }
    None
}
