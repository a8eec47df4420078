//! What of a hook's store may be given: blocks, rows, slots of masks and of actions, and the places of heads.
//!
//! An edit takes numbers out of the pools, commits what it puts there, and leaves those that walks come to no
//! more. What makes the pools right are facts over the commits and the base (`specs/Pools.antt`): a free
//! block is in no chain that was named since the base, and at the roots of a free row or slot nothing stood
//! since. What left is empty: nothing stands at its roots, and a block that left is named by such roots
//! alone. Of the two places of a hook's tables one is active; the other is free where no chain had its blocks
//! since the base.
//!
//! The facts are kept step by step (`specs/Steps.antt`): a number is taken, a commit is made that spends what
//! was taken and at whose end nothing stands at the pools' roots that didn't before, and a number leaves at
//! which nothing stands any more. So each kind of edit shows no more than that of its commits.
//!
//! A pool's numbers, those that are free and those that left, are kept by `numbers`.
//!
//! Pools belong to the thread that has the store's writer. All their room is taken as they are made.
//!
//! Not promised: that what left comes back, which `tidying` sees to.
#![tactic(auto)]

mod laws;
pub mod numbers;
mod pools;
pub mod tidying;

pub use laws::{pools_have_room, pools_of_a_commit};
pub use pools::{IdlePlace, Pools};
