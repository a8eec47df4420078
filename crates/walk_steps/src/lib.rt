//! The walk of one packet, one visit a step, whoever answers.
//!
//! A `Walk` holds the frame, what the hook's head told, the list of actions that runs, and how far the walk
//! has come. Each `step` asks one question of a `Visits`, goes on by the answer, and keeps the answer's
//! point. Who answers isn't the walk's concern: plain lists, or a store that is edited between two steps. So
//! a walk never looks at a list of filters, and never waits.
//!
//! What a step does is one rule, `after` of `walk_rules`: each step's contract says that the standing after
//! it is that rule's, by the question that the standing before asked and the answer that came. `run` strings
//! the steps together, and its contract is the definition of a walk over the answers and points that it got.
//!
//! Room is taken once, by `with_room`, and serves packet after packet: a frame, the tables of a hook, 65,536
//! points and as many executions. No other call takes memory. The frame is dissected when it is loaded, and
//! again only after an action that may change its bytes.
//!
//! Whoever tells of a walk asks between two steps where it stands (`stand`), how many restarts are left, and
//! what the fields of its frame are.
//!
//! A walk that needs no visits, since its lists stay as they are, has from here the room for what ran, and
//! the test of a table's protocol.
//!
//! One thread walks with a `Walk` at a time. A walk remembers names that it was told, and `Visits` is asked
//! only for those: which names are known is part of its contract, so that whoever answers may keep things in
//! slots.
//!
//! Not promised: anything of the answers but what the `Visits` that is used promises.
#![tactic(auto)]

mod course;
mod ends;
mod rooms;
mod stand;
mod steps;
mod stops;
mod visits;
mod walk;

pub use rooms::ExecutionRoom;
pub use stand::Stand;
pub use stops::admits;
pub use visits::Visits;
pub use walk::{Progress, Walk, run};
