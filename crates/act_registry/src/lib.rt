//! The live actions of a run, shared by all filters.
//!
//! A filter names its actions by their serials, and several filters may name one action. So the actions stand
//! here, once each, with two counts: how many hold it (`references`), and how many of those are places in
//! filters (`binds`). An action is gone when its last holder lets it go. An action that was added on its own
//! has one reference that no filter holds, so it outlives the filters.
//!
//! A `Registry` is the list of the live entries by rising serial, and contracts see no more than that list,
//! how many actions were made so far, and for how many more room is reserved. Beside the list it keeps its
//! names, sorted by kind and index, which no contract sees. So a serial, or a kind and index, is found by
//! halving, and not by going through all entries. The lowest free index of a kind is found by one scan of
//! that kind's names. Making an action and taking one out move what stands behind its place.
//!
//! Room is reserved apart from use, so that an edit can be refused for want of memory before it has changed
//! anything.
//!
//! The registry is generic in the parameters of actions, of which it reads the kind alone. One thread changes
//! it at a time, by `&mut`; any may read it by `&`, if the parameters allow that.
//!
//! Not promised: that memory suffices, and in which order the parameters of removed actions are dropped.
#![tactic(auto)]

mod entry;
mod fault;
mod limits;
mod names;
mod places;
mod registry;
mod room;

pub use entry::{Entry, Kinded};
pub use fault::RegistryFault;
pub use limits::{ACTIONS_MAX, MADE_MAX};
pub use registry::Registry;
