//! The past of a journal's states, kept edit by edit beside the lists.
//!
//! Whoever judges a report asks at each visit what the state of a point answers, and points of one walk may
//! go up and down over a whole round. To keep a state for each point would cost a copy for each edit. So
//! `StatePast` keeps the past of each thing that a walk asks for apart: of each slot, which is a mask's
//! serial with a key, the actions of the filter that stood there; of each mask its words, while it stood; of
//! each action its parameters. A look-up is one hash and one halving, whatever the length of the journal.
//!
//! `follow` does one step of the lists, and remembers it. An edit costs what it changes: one or two changes,
//! or for a table that goes one for each of its filters. What went is copied out of the lists before the step
//! (`gone_filters`); what is there then is asked of the lists after it. Points are counted over the whole
//! journal, so nothing is cleared between rounds.
//!
//! Whoever goes through what a walk may meet from a point on asks where an answer is another next
//! (`look_up_after`, `params_after`, `mask_after`). What was put is found by halving too, and passed by where
//! it is what stood there before.
//!
//! Whoever keeps a past of their own beside this one names slots as it does (`slot_name`), and finds the
//! filter that an edit put by `coming_in`.
//!
//! The tables of a hook aren't kept here: whoever walks has lists that stand at the point of the walk's head.
//! Both together answer what the states of the journal answer (`journals`).
//!
//! # Who may call what
//!
//! Plain data, used by one thread at a time. Only `follow` takes memory. Where it is refused the past may
//! have changed, and the lists may have gone on: nothing is promised of either then but that neither breaks.
//!
//! Not promised: anything of how long a look-up takes where keys were chosen to collide, since the index has
//! no seed.
#![tactic(auto)]

mod actions;
mod alike;
mod changes;
mod coming;
mod following;
mod found;
pub mod gone_filters;
pub mod journals;
mod masks;
mod names;
mod others;
mod past;
mod slots;
mod telling;

pub use coming::{Coming, coming_in};
pub use names::slot_name;
pub use past::StatePast;
