//! What a plain state has of one mask and of one action, and what one edit changes of it.
//!
//! A state is one flat list of filters and a list of actions (`filter_state`), and a step is defined on
//! these. Whoever keeps a mask's filters, a hook's tables or an action apart from the rest asks for less than
//! a state: the filters of one mask in their order, the mask's words, an action's parameters
//! (`specs/OfEffects/Parts.antt`). And he has to know which of them an edit touches. The laws here say that for each
//! kind of edit, in terms of what a packet's walk can ask: the tables of a hook with their masks, the words
//! and the filters of a mask, and the parameters of an action (`specs/OfEffects/Effects.antt`). An edit of filters
//! changes the filters of one mask or of two, and the tables of one hook where a mask comes or goes; or it
//! takes a whole table away.
//!
//! `mask_answers` says that a search of one mask's filters finds what the plain state answers.
//!
//! How a shared store tells these parts is said by crates above (`hook_meaning`), which ask of the states
//! alone what is said here. The judge of reports asks the same, and knows no store.
//!
//! Definitions, laws and small states on which they are worked out: there is nothing here to call at run
//! time, so any thread may do anything with it.
//!
//! Not promised: which tables a hook has where they change, and anything of an edit that is refused, which
//! changes nothing.
#![tactic(auto)]

mod effect_cases;
mod laws;
pub mod mask_answers;
mod part_cases;

pub use effect_cases::worked_effects;
pub use laws::{
    actions_alone, actions_of_filters, filter_added, filter_deleted, filter_replaced, the_qdisc,
};
pub use part_cases::worked_parts;
