//! What an edit of filters needs, told by what is looked up before it.
//!
//! `needed_of` says it by the states before and after the edit. Before anything is done there
//! is but the first of the two, and what can be looked up in it: the mask or the filter that the edit finds,
//! how many filters that mask has, and how many actions the edit is going to make. These laws say for each
//! kind of edit what is needed in those terms. What an edit of the qdisc or of actions needs, `needs_from`
//! says at once.

mod laws;

pub use laws::{needs_of_adds, needs_of_later_filters, needs_of_removals, needs_of_replaces};
