//! The actions of a filter's line, bound or made: planned first, and carried out later without refusal.
//!
//! A line names its filter's actions in order. One that is live is bound, another is made, and a later one
//! may bind what an earlier one made. An edit can still be refused after its actions are known to be right,
//! and whoever asked may let it be. So `ActionPlan::fill` only looks: it goes through the line against the
//! registry and against what it plans to make itself, and is refused exactly where the state's own resolving
//! is, also where there is no memory. Once nothing else can refuse the edit, the plan is kept as
//! `PlannedActions`, which takes memory, and `carry_out` then does what was planned. It takes no memory, if
//! the registry has reserved room for what the plan makes.
//!
//! A plan fits the registry that it was made for (`AreFit` in `specs/Plans.antt`). Whoever keeps a plan sees
//! to it that no one changes the registry in between.
//!
//! Plain data: one thread at a time, by `&mut`. Only `serials` and `keep` take memory.
#![tactic(auto)]

mod carrying;
mod counting;
mod names;
mod plan;
mod planned;
mod planned_actions;
mod serials;
mod unbinding;

pub use plan::ActionPlan;
pub use planned::PlannedAction;
pub use planned_actions::PlannedActions;
pub use unbinding::unbind_all;
