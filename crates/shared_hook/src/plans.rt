//! How an accepted edit is going to be done on a whole desk, of whatever kind it is.
//!
//! An edit may only be begun when nothing can stop it any more: its memory is there, and so is all that it
//! takes out of the pools. A `Plan` is what has to be known for that. `Plan::of` looks the edit up on the
//! desk, takes all the memory, and changes nothing; `Plan::needs` tells what of each pool the edit is going
//! to take, which is what the state and the edit alone say; `Plan::carry_out` does the edit, in the lists and
//! by its commits, and leaves a desk again, one edit further. In between a desk may be tidied: what a plan
//! rests on is the state, and at which slots its masks stand, and tidying changes neither (`plans_go_on`).
//!
//! A plan that isn't carried out is dropped, and then nothing happened.
//!
//! The thread that has the desk calls. `Plan::of` takes memory; nothing else does, and no call waits.
//!
//! Not promised: anything of a plan after another edit.

mod adding;
mod carrying;
mod deleting;
mod filtering;
mod laws;
mod lines;
mod means;
mod plan;
mod replacing;

pub use laws::plans_go_on;
pub use means::Means;
pub use plan::Plan;
