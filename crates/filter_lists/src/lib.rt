//! The filters of the two hooks, as the nested lists in which a packet meets them, and the actions that
//! filters share.
//!
//! A hook has tables, a table has masks, and a mask has filters. A packet asks a table for each of its masks
//! once, and a line that names a table or a handle looks at the table of one chain and pref, so the filters
//! stand nested. A filter has the serials of its actions, which stand in a registry beside the tables. What
//! an edit means is written elsewhere, on the flat state of `filter_state`, where each filter is a row with
//! all that it stands under. The two are tied by `Spells` (`specs/Spells.antt`): all is the state's, but for
//! the order between rows of different masks, which means nothing.
//!
//! `Lists::step` is that state's step. `prepare` and then `finish` are the same in two calls: `prepare` looks
//! for every refusal, takes the memory that the edit wants, and leaves the state as it was; `finish` does the
//! edit, and can't be refused. So whoever must do something else in between may still give the edit up.
//! Clauses speak of every state that the lists spell, so no call carries a state along. The lists spell a
//! sound state at all times: that is the invariant of `Lists`.
//!
//! The tables (filter_tables) and what every edit asks (hook_lists) stand in crates of their own. The edits
//! of filters have a module each, `adding`, `replacing` and `removing`; those of the qdisc and of actions
//! apart from filters stand beside them.
//!
//! # How a `filter add` goes through them
//!
//! ```text
//! Lists::prepare -> plan_for -> adding::prepare_addition
//!   |
//!   | look: every refusal, in the plain state's order; nothing is changed
//!   |-- the qdisc, the pref, the protocol       hook_lists::check_hook, check_protocol
//!   |-- the handle; the same mask and key       hook_lists::check_match: filter_tables, and filter_index
//!   |                                           within a mask
//!   |-- the line's actions, bound or made       hook_lists::resolve: action_plan over act_registry
//!   |-- tables, masks, filters, actions full    hook_lists::check_masks, check_actions
//!   |
//!   | make ready: all the memory, none of it used yet
//!   |-- room for the actions                    hook_lists::reserve_actions
//!   '-- a seat: in a mask that stands, or a     filter_tables: reserve
//!       mask or a table of the filter's own
//! Lists::finish -> carry -> adding::add: no memory, no refusal
//!   |-- the actions are bound and made          hook_lists::carry_out
//!   '-- the filter is put into its seat         filter_tables: put
//! ```
//!
//! A replace and a del go the same two ways through `replacing` and `removing`; a replace of a filter that
//! isn't there is an add. `Lists::step` goes by `add_at_once` and `replace_at_once` for filters: the same
//! calls in the same order, with nothing kept between the looking and the doing.
//!
//! One thread changes the lists at a time, by `&mut`, and any may read them by `&`. Only `step` and `prepare`
//! take memory.
//!
//! Not promised: that memory suffices.
#![tactic(auto)]

mod adding;
mod applying;
mod doing;
mod lists;
mod plan;
mod prepared;
mod preparing;
mod removing;
mod replacing;
mod shared;

pub use filter_index::{Filter, Filters};
pub use filter_state::{ActionLine, ActionLines, Done, Edit, FilterLine, Refusal};
pub use filter_tables::{FilterTable, FilterTables, MaskList, MaskLists};
pub use lists::Lists;
pub use prepared::Prepared;
