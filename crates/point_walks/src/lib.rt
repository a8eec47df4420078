//! The walk of a packet at given points.
//!
//! A report tells at which point each visit of a walk was answered. Whoever judges it walks again: each visit
//! is answered by the state of its point (`PointAnswers`), and as the answers are functions of the points,
//! the walk is one too. So there is no search: where a visit has no answer, or the walk has ended before the
//! last point or not with it, no walk has these points. `walk_at` leaves the walk where it stands at its end,
//! or says why no walk at these points is lawful. It notes what was asked for and copies no answer. Whoever
//! tells of a walk makes its visits one by one: `visit_at` says what was asked and answered.
//!
//! Points are lawful within bounds: the first is the tables' and no lower than the worker's floor, none is
//! lower than that or above the ceiling, and those of one mask or one action never fall. For the last,
//! `LatestPoints` keeps the last point of each mask and each action by serial, beside the number of the walk
//! that set it: a visit costs one look and one write, and nothing is cleared between walks.
//!
//! # Who may call what
//!
//! Plain data, one thread at a time. `LatestPoints` takes memory only for a serial that is greater than all
//! before it. Whoever walks packet after packet keeps one `Walk` and one `LatestPoints`.
#![tactic(auto)]

mod answered;
mod answers;
mod asked_at;
mod at_points;
mod bounds;
mod fault;
mod last_points;
mod latest;
mod walking;

pub use answered::Answered;
pub use answers::PointAnswers;
pub use at_points::Thing;
pub use bounds::Bounds;
pub use fault::PointFault;
pub use latest::LatestPoints;
pub use walking::{visit_at, walk_at};
