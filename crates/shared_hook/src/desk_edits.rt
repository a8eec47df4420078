//! Edits of filters on a whole desk.
//!
//! An edit of filters is several commits. The lists come first, since nothing can fail any more then, and all
//! that the commits need is read off the new lists. Then each new action gets a slot and a block of its own,
//! which no walk comes to (`lead`, `lead_removal`). So from there up to the edit's own commit the lists are
//! one edit ahead of the commits: `IsAhead` is what holds meanwhile, and what each of the calls that make
//! that commit asks for. Behind it, the actions that went leave (`let_go`).
//!
//! One filter of a mask that stands comes, goes or gives way to another by one commit to the root of one
//! bucket (`add_to_mask`, `take_from_mask`, `exchange_in_mask`). Heads, tables, places of actions and all
//! other masks stay as they were. But the mask may have another size now than its filters need:
//! `add_to_mask` and `take_from_mask` lead to `IsUnsettled`, and tell by how many filters the mask changed
//! and for how many it has its size. Where that size is still right, `settled_masks` says that the desk is
//! one again; else `resize_mask` lays the mask anew. `exchange_in_mask` leaves a desk at once.
//!
//! Other edits change which masks a hook has, and give it its tables anew. `open_in_head` puts a filter into
//! a mask of its own, which is made for it, in a table that stands or is new. `close_in_head` deletes the
//! only filter of a mask, or a whole table. Which masks went isn't told by the edit, since a table may take
//! several with it. But the old tables and the new ones of the hook are at hand once its root names the new
//! ones, and a mask of the old ones that the new ones don't have went: a mask stands on one hook, in one
//! table. It is looked for near its old place first, so that few edits search all tables. For each the writer
//! of masks forgets it, its slot leaves, then its rows, and then the blocks that those roots alone name.
//!
//! Whole edits are made of these parts: one filter of a mask that stands comes, gives way to another or goes
//! (`put_into_mask`, `exchange_in_place`, `take_out_of_mask`), a filter comes with a mask of its own
//! (`put_with_mask`), or masks go with all their filters (`take_masks`). Each asks for a desk, for the way
//! that `ways` of `desk_parts` found on it and for what `needs_by` tells of that way, and leaves a desk
//! again, one edit further. What was found holds of the desk before the edit, and each commit asks for it as
//! things are then. Between the two come only commits that carry no edit and change no head, so every mask is
//! still at its slot, with as many filters (`proofs/OfDeskEdits/Found.antt`). As much is taken as is needed,
//! and what leaves is told (`specs/OfDeskEdits/Spent.antt`).
//!
//! The numbers that a commit takes come out of the pools inside its call, so that what is known of free ones
//! holds of the very commits that it finds; those that it sets free leave. Memory may be refused only before
//! an edit is begun, and how much it takes is known by then. So the lists that name what is taken are made
//! before: each call is given a `Room`, and lets go of it.
//!
//! The thread that has the store's writer calls, with an edit that was made ready before. A call refuses
//! nothing, takes no memory and doesn't wait.
//!
//! A filter that moves to another mask or key is done by `moves`. It takes numbers for the masks that it lays
//! anew by `take_for_mask`, and parts with each at its old slot by `part_with`.
//!
//! Not promised: that the pools have what is taken, that the idle place of a hook is free, or that `later`
//! filters are counted right. All are the caller's to see to, by tidying or else, and by `later_in_bucket` of
//! `filters` of `desk_masks`; and so it is to tell which kind of edit it is, as `way_of` of `ways` of
//! `desk_parts` does. Such a caller, for any kind of edit, is `shared_hook`.
mod adding;
mod closing;
mod exchanging;
mod fitting;
mod in_place;
mod into_mask;
mod laws;
mod leading;
mod leaving;
mod letting;
pub mod moves;
mod opening;
mod out_of_mask;
mod removing;
mod room;
mod serials;
mod settling;
mod taking;
mod with_mask;
mod without_masks;

pub use adding::add_to_mask;
pub use closing::close_in_head;
pub use exchanging::exchange_in_mask;
pub use in_place::exchange_in_place;
pub use into_mask::put_into_mask;
pub use laws::{gone_may_go, places_stay};
pub use leading::{lead, lead_removal};
pub use leaving::part_with;
pub use letting::let_go;
pub use opening::open_in_head;
pub use out_of_mask::take_out_of_mask;
pub use removing::take_from_mask;
pub use room::Room;
pub use settling::{resize_mask, settled_masks};
pub use taking::take_for_mask;
pub use with_mask::put_with_mask;
pub use without_masks::take_masks;
