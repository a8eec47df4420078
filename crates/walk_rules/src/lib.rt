//! What a packet meets at a hook: the rules of the walk, and their laws.
//!
//! A packet goes through the tables of a chain by rising pref. In a table, the masks are tried from the
//! oldest on, and the first under which a filter meets the frame decides; its actions run one after the
//! other, and the last of them says whether the packet goes on with the next table, from the start, from
//! another chain's start, or not at all (tc(8), tc-flower(8), tc-actions(8)).
//!
//! The rules stand here in two forms. `specs/Steps.antt` takes a walk apart into visits: the head of the
//! hook, a look-up in one mask, the parameters of one action. Each visit may be answered at another moment,
//! so this form says what a packet meets while edits are made; `IsWalk` in `specs/Walks.antt` strings the
//! visits together. `specs/Plain.antt` says what a packet meets in one state, from the state's rows, without
//! visits. `one_state` is the law between the two: over one state, they are the same.
//!
//! While a hook is edited, each visit is answered at a point of the journal. `points` says which ones a walk
//! may have.
//!
//! Masks are tried by age and not by how much of a key they fix: the head tells them so, a new mask changes
//! nothing for packets that an older one serves, and no order has to be kept while masks come and go.
//!
//! Laws and definitions alone, and the type of a verdict: nothing here keeps anything or takes memory.
//!
//! Not promised: how fast a walk is, and that the profile is the kernel's where it is called this project's
//! own.
#![tactic(auto)]

mod laws;
mod limits;
pub mod points;
mod verdict;

pub use laws::{one_state, one_walk, order_is_free};
pub use limits::{RESTARTS_MAX, VISITS_MAX};
pub use verdict::Verdict;
