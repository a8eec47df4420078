//! Edits that move a filter to another key or mask, on a whole desk.
//!
//! A filter that gets another key comes last in its mask. One that gets another mask leaves its own, which
//! stays where it has others, and comes last in the new one, which may stand or is made for it. Either way a
//! walk must find all as it was or all as it is, so no mask is changed where it stands: each mask that the
//! edit concerns is laid anew elsewhere, as the edit leaves it, and then one commit gives the hook its
//! tables, which name the masks at their new places. `give_other_key` and `give_other_mask` do such an edit
//! whole, from a desk to a desk.
//!
//! The lists go first, so they are one edit ahead: what a mask has after the edit is read off them, with the
//! slots of its filters' actions (`telling.rt`). Then come, mask by mask, numbers out of the pools and the
//! commits of the whole mask, which carry no edit (`laying.rt`, `raising.rt`). What holds in between is
//! `IsRaising` (`specs/OfDeskEdits/OfMoves/Raises.antt`): a desk as it was, and beside it masks that nobody
//! reads. The head's commit carries the edit. The masks at the old places are gone then, though their serials
//! may be named at new ones, and leave the writer of masks, each with its slot, its rows and its blocks
//! (`moving.rt`). Last go the actions of the old filter that are live no more.
//!
//! Memory may be refused only before an edit is begun, so the lists for numbers and filters of each mask come
//! as a `MaskRoom` that was made before. A call refuses nothing, takes no memory and doesn't wait.
//!
//! The thread that has the store's writer calls, with an edit that was made ready before.
//!
//! Not promised: that the pools have what is taken, that the idle place of the hook is free, or which kind of
//! edit it is. All are the caller's to see to, as `way_of` of `ways` of `desk_parts` tells them.
mod laying;
mod leaving;
mod listing;
mod mask_room;
mod moving;
mod named;
mod other_key;
mod other_mask;
mod parting;
mod raising;
mod telling;

pub use mask_room::MaskRoom;
pub use other_key::give_other_key;
pub use other_mask::give_other_mask;
