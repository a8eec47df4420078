//! The actions that a filter runs on a packet, as a batch says them: what kind an action is, what it does,
//! and how the list that it stands in goes on after it.
//!
//! Parameters are plain data, small enough to be copied, and each kind keeps only what it acts by. So what an
//! action does is told by its parameters alone, whoever holds them: a filter, a shared action, or a walk that
//! read them at some moment. `act` is that: a frame changed, and a control.
//!
//! Which values a batch line can give is `AreParams` in `specs/Ranges.antt`: the types alone allow more, as a
//! VLAN number of 16 bits.
//!
//! Nothing here takes memory or keeps anything between calls, so any thread may call any function.
//!
//! Not promised: anything about how often an action runs. That is for the list that it stands in, and for the
//! walk.
#![tactic(auto)]

mod acts;
mod kinded;
mod limits;
mod params;

pub use acts::act;
pub use limits::CHAIN_MAX;
pub use params::{Control, Kind, Params, VlanOp};
