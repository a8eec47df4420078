//! What the lists of both hooks keep, and what all edits of filters ask of it.
//!
//! `Kept` is plain: tables for each hook, the actions, and three counts. What holds of it at all times is
//! `AreKept` in `specs/States.antt`: its tables are whole, the flat state that they spell is sound, and its
//! filters are counted. Every edit of a filter is first looked at, and then done; what several edits ask, and
//! what they all do with actions, stands here once, held to the conditions of the flat state. The edits
//! themselves stand in crates of their own, and `Lists` of filter_lists puts them together and keeps the
//! fields to itself.
//!
//! One thread changes it at a time, by `&mut`. Only `reserve_actions` takes memory here.
#![tactic(auto)]

mod kept;
mod laws;
mod questions;
mod resolving;

pub use kept::Kept;
pub use laws::{places_are_bound, room_changes_nothing};
pub use questions::{
    check_hook, check_masks, check_match, check_protocol, check_protocol_if, find_table, mask_at,
    table_at, tables_of,
};
pub use resolving::{carry_out, carry_plan, check_actions, reserve_actions, resolve, unbind};
