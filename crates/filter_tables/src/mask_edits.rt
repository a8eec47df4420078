//! The changes of one mask among the masks of a table.
ghost use Rattle.std.specs.Prelude.{◌≡◌, ◌<◌, ◌≤◌, ◌++◌, ◌+◌, ◌∷◌, [], ℕ, length, map, find, option_map};
ghost use Rattle.std.specs.Prelude.{Some, OnOk, vec_capacity, true, false};
ghost use Rattle.filter_index.specs.Listed.{has_handle, has_key};
ghost use Rattle.filter_tables.specs.Plain.{PlainMask};
ghost use Rattle.filter_tables.specs.Places.{change_at, item_at, place_where};
ghost use Rattle.filter_tables.specs.Room.{spare_at};
ghost use Rattle.filter_tables.specs.SeenMask.{plain_mask};
ghost use Rattle.filter_tables.specs.SeenRoom.{filter_room};
ghost use Rattle.filter_tables.specs.Changes.{has_words, has_handle_in, has_key_in, more_filter, less_filter};
ghost use Rattle.filter_tables.specs.Changes.{other_actions, new_mask, swept};

use crate::mask_list::MaskList;
use filter_index::{Filter, Filters};
use flow_fields::Key;
use tc_base::{NoMemory, Numbers};

/// Whether the mask has those words.
pub(crate) fn is_mask(list: &MaskList, mask: &Key<14>) -> bool
    ensures { result ≡ has_words mask.now.words (plain_mask list.now) }
{
    list.mask().words == mask.words
}

/// Whether a filter of the mask has that handle.
pub(crate) fn holds(list: &MaskList, handle: u32) -> bool
    ensures { result ≡ has_handle_in handle (plain_mask list.now) }
{
    list.filters().with_handle(handle).is_some()
}

/// The place of the mask with those words.
pub(crate) fn place_of_mask(lists: &[MaskList], mask: &Key<14>) -> Option<usize>
    ensures { result ≡ place_where (has_words mask.now.words) (map plain_mask lists.now) }
{
    lists.iter().position(|list| is_mask(list, mask))
}

/// The place of the mask that has the filter with that handle.
pub(crate) fn place_of_handle(lists: &[MaskList], handle: u32) -> Option<usize>
    ensures { result ≡ place_where (has_handle_in handle) (map plain_mask lists.now) }
{
    lists.iter().position(|list| holds(list, handle))
}

/// Makes room for one filter more in the mask at that place.
pub(crate) fn reserve_at(lists: &mut Vec<MaskList>, at: usize) -> Result<(), NoMemory>
    requires { at < length lists.old.items }
    ensures masks { map plain_mask lists.new.items ≡ map plain_mask lists.old.items }
    ensures room { OnOk result (0 < spare_at (map filter_room lists.new.items) at) }
{
    lists[at].reserve()
}

/// Puts a filter behind those of the mask at that place.
pub(crate) fn put_at(lists: &mut Vec<MaskList>, at: usize, filter: Filter)
    requires within { at < length lists.old.items }
    requires room { 0 < spare_at (map filter_room lists.old.items) at }
    requires handle { (m : PlainMask) → item_at (map plain_mask lists.old.items) at ≡ Some m
        → has_handle_in filter.handle m ≡ false }
    requires key { (m : PlainMask) → item_at (map plain_mask lists.old.items) at ≡ Some m
        → has_key_in filter.key.words m ≡ false }
    ensures masks { map plain_mask lists.new.items
        ≡ change_at at (more_filter filter) (map plain_mask lists.old.items) }
    ensures len { length lists.new.items ≡ length lists.old.items }
{
    lists[at].put(filter);
}

/// Puts a mask with its first filter behind the others.
pub(crate) fn push_mask(
    lists: &mut Vec<MaskList>,
    serial: u32,
    mask: Key<14>,
    filters: Filters,
    filter: Filter,
)
    requires room { length lists.old.items < vec_capacity lists.old }
    requires empty { filters.filters ≡ [] }
    requires place { 0 < filters.spare }
    ensures masks { map plain_mask lists.new.items ≡ map plain_mask lists.old.items
        ++ (new_mask serial mask.words filter ∷ []) }
    ensures len { length lists.new.items ≡ length lists.old.items + 1 }
{
    lists.push_reserved(MaskList::new(serial, mask, filters, filter));
}

/// Takes the filter with that handle out of the mask at that place, which stays even if it is left empty.
pub(crate) fn take_at(lists: &mut Vec<MaskList>, at: usize, handle: u32) -> Filter
    requires { place_where (has_handle_in handle) (map plain_mask lists.old.items) ≡ Some at }
    ensures taken { (m : PlainMask) → item_at (map plain_mask lists.old.items) at ≡ Some m
        → find (has_handle handle) m.filters ≡ Some result }
    ensures masks { map plain_mask lists.new.items
        ≡ change_at at (less_filter handle) (map plain_mask lists.old.items) }
    ensures spares { (place : ℕ)
        → spare_at (map filter_room lists.old.items) place ≤ spare_at
        (map filter_room lists.new.items) place }
    ensures len { length lists.new.items ≡ length lists.old.items }
    ensures capacity { vec_capacity lists.new ≡ vec_capacity lists.old }
{
    lists[at].take(handle)
}

/// Gives the filter with that handle, in the mask at that place, other actions.
pub(crate) fn act_at(lists: &mut Vec<MaskList>, at: usize, handle: u32, actions: Numbers) -> Numbers
    requires { place_where (has_handle_in handle) (map plain_mask lists.old.items) ≡ Some at }
    ensures old { (m : PlainMask) → item_at (map plain_mask lists.old.items) at ≡ Some m
        → option_map (λ f. f.actions) (find (has_handle handle) m.filters) ≡ Some result }
    ensures masks { map plain_mask lists.new.items
        ≡ change_at at (other_actions handle actions) (map plain_mask lists.old.items) }
{
    lists[at].set_actions(handle, actions)
}

/// Takes the mask at that place out, if no filter is left in it.
pub(crate) fn sweep(lists: &mut Vec<MaskList>, at: usize)
    requires { at < length lists.old.items }
    ensures { map plain_mask lists.new.items ≡ swept at (map plain_mask lists.old.items) }
{
    if lists[at].filters().is_empty() {
        lists.remove(at);
    }
}
