//! The filters of one hook: tables, in each of them masks, and in each of these filters.
//!
//! A packet goes through the tables of its hook by rising chain and pref, and in each through the masks in
//! the order in which they were made. So that is how they stand: a `FilterTables` is the list of its tables
//! by rising chain, then rising pref, and a `MaskLists` the list of the masks of one table. The filters of
//! one mask are a `Filters` of `filter_index`. A table has few masks, so a mask is found by going through
//! them. A table is found by halving, and a filter in its mask by an index.
//!
//! A `MaskList` has a sieve beside its filters, in its first 64 bytes: a frame's key is asked there first,
//! and most keys that meet no filter are told so (`met`). Each filter's key has gone through the sieve, and
//! as long as the sieve looks at all that tells these keys apart, a filter is looked up by what it looks at.
//! Both is kept by the type. So its fields are private, and the calls that change it stay in this crate.
//!
//! Contracts see no more than the lists (specs/Plain.antt), and for how much more there is room at each
//! place. Each call that changes them says exactly what it leaves: the same lists with one element changed,
//! put or taken out. Places are counted from 0, and are those that the look-ups answer. A call that changes
//! the lists may move what stands behind the place.
//!
//! No two filters of one table have the same handle. Beside its masks a table keeps all of these handles,
//! rising, which no contract sees. They rise from 1, so the lowest that is free is the first place whose
//! handle is not one more than the place, and it is found by halving. A filter that moves to another mask
//! keeps its handle, so the sorted handles stay.
//!
//! Room is reserved apart from use, so that an edit can be refused for want of memory before it has changed
//! anything. Only the calls named `reserve` take memory, and one that is refused loses nothing. A new mask
//! comes with a `Filters` in which its caller has reserved room, and a new table with the masks that its
//! caller made. Reserved room is for the next call alone, so whoever puts two reserves before each.
//!
//! Whoever holds the `FilterTables` by `&mut` changes it, one thread at a time; any may read it by `&`. Who
//! looks something up in one table takes it from `as_slice`, and goes by its `masks`.
//!
//! Not promised: that memory suffices; that two masks of a table differ in their words, that serials rise,
//! and that no table or mask is put without a filter, which are up to who puts them. `take` and the moves
//! leave no mask without filters, and `take` no table without masks, where there was none before.
#![tactic(auto)]

mod filter_table;
mod filter_tables;
mod handles;
mod mask_edits;
mod mask_list;
mod mask_lists;
mod room;
mod table_places;

pub use filter_table::FilterTable;
pub use filter_tables::FilterTables;
pub use mask_list::MaskList;
pub use mask_lists::MaskLists;
