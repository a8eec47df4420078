//! The masks of one table, and the handles of its filters beside them.
ghost use Rattle.filter_state.specs.declared.limits.TheConstants.{FILTERS_MAX};
ghost use Rattle.std.specs.Prelude.{◌≡◌, ◌<◌, ◌≤◌, ◌++◌, ◌∷◌, [], length, map, find, option_map, Some, OnOk};
ghost use Rattle.std.specs.Prelude.{false};
ghost use Rattle.std.specs.List.{list_any};
ghost use Rattle.filter_index.specs.Listed.{has_handle, has_key, without};
ghost use Rattle.filter_tables.specs.Plain.{PlainMask};
ghost use Rattle.filter_tables.specs.Places.{change_at, item_at, place_where};
ghost use Rattle.filter_tables.specs.Room.{spare_at};
ghost use Rattle.filter_tables.specs.SeenMask.{plain_mask};
ghost use Rattle.filter_tables.specs.Changes.{has_words, has_handle_in, has_key_in, any_handle, more_filter};
ghost use Rattle.filter_tables.specs.Changes.{new_mask, other_actions, taken, moved, moved_out, count_of};
ghost use Rattle.filter_tables.specs.Changes.{IsLowestFree};

use crate::handles::{drop_handle, lowest_free, put_handle};
use crate::mask_edits::{
    act_at, place_of_handle, place_of_mask, push_mask, put_at, reserve_at, sweep, take_at,
};
use crate::mask_list::MaskList;
use filter_index::{Filter, Filters};
use flow_fields::Key;
use std::alloc::Global;
use std::marker::Model;
use tc_base::{NoMemory, Numbers};

/// The masks of one table, in the order in which they were made.
#[derive(Drop)]
pub struct MaskLists {
    items: Vec<MaskList>,
    // The handles of all filters, rising.
    handles: Vec<u32>,
}

impl Model for MaskLists {
    ghost use Rattle.std.specs.Prelude.{◌-◌, length, map, min, vec_capacity};
    ghost use Rattle.filter_tables.specs.Room.{MaskRoom};
    ghost use Rattle.filter_tables.specs.SeenMask.{plain_mask};
    ghost use Rattle.filter_tables.specs.SeenRoom.{filter_room};
    ghost use Rattle.filter_tables.specs.Handles.{AreHandles};

    ghost Value = { MaskRoom };

    ghost view = { λ l. record {
      masks = map plain_mask l.items.items;
      spare = min (vec_capacity l.items - length l.items.items)
          (vec_capacity l.handles - length l.handles.items);
      spares = map (λ m. min (filter_room m) (vec_capacity l.handles - length l.handles.items)) l.items.items;
    } };

    ghost invariant = { λ l. AreHandles (map plain_mask l.items.items) l.handles.items };
}

impl MaskLists {
    /// No masks. It takes no memory yet.
    pub fn new(alloc: Global) -> MaskLists
        ensures { result.masks ≡ [] }
    {
        MaskLists {
            items: Vec::new(alloc),
            handles: Vec::new(alloc),
        }
    }

    /// The masks, in the order in which they were made.
    pub fn as_slice(&self) -> &[MaskList]
        ensures { map plain_mask result.now ≡ self.now.masks }
    {
        &self.items
    }

    /// Makes room for one mask more with its first filter, and changes nothing else. The room in the new mask
    /// is reserved in the `Filters` that `put_mask` and `move_out` are given.
    ///
    /// `NoMemory`: there was no room, and memory was refused.
    pub fn reserve(&mut self) -> Result<(), NoMemory>
        ensures masks { self.new.masks ≡ self.old.masks }
        ensures room { OnOk result (0 < self.new.spare) }
    {
        self.items.reserve(1)?;
        self.handles.reserve(1)?;
        Ok(())
    }

    /// Makes room for one filter more in the mask at that place, and changes nothing else.
    ///
    /// `NoMemory`: there was no room, and memory was refused.
    pub fn reserve_in(&mut self, mask: usize) -> Result<(), NoMemory>
        requires { mask < length self.old.masks }
        ensures masks { self.new.masks ≡ self.old.masks }
        ensures room { OnOk result (0 < spare_at self.new.spares mask) }
    {
        reserve_at(&mut self.items, mask)?;
        self.handles.reserve(1)?;
        Ok(())
    }

    /// The place of the mask with those words.
    pub fn find_mask(&self, mask: &Key<14>) -> Option<usize>
        ensures { result ≡ place_where (has_words mask.now.words) self.now.masks }
    {
        place_of_mask(&self.items, mask)
    }

    /// The place of the mask that has the filter with that handle.
    pub fn find_handle(&self, handle: u32) -> Option<usize>
        ensures { result ≡ place_where (has_handle_in handle) self.now.masks }
    {
        place_of_handle(&self.items, handle)
    }

    /// The lowest handle from 1 that no filter has.
    pub fn free_handle(&self) -> u32
        requires { count_of self.now.masks ≤ FILTERS_MAX }
        ensures { IsLowestFree self.now.masks result }
    {
        lowest_free(&self.handles)
    }

    /// Puts a filter behind those of the mask at that place. It takes no memory.
    pub fn put(&mut self, mask: usize, filter: Filter)
        requires room { 0 < spare_at self.old.spares mask }
        requires within { mask < length self.old.masks }
        requires from_one { 1 ≤ filter.handle }
        requires handle { any_handle filter.handle self.old.masks ≡ false }
        requires key { (m : PlainMask) → item_at self.old.masks mask ≡ Some m
            → has_key_in filter.key.words m ≡ false }
        ensures { self.new.masks ≡ change_at mask (more_filter filter) self.old.masks }
    {
        put_handle(&mut self.handles, filter.handle);
        put_at(&mut self.items, mask, filter);
    }

    /// Puts a mask with its first filter behind the others. `filters` is empty and has room. It takes no
    /// memory.
    pub fn put_mask(&mut self, serial: u32, mask: Key<14>, filters: Filters, filter: Filter)
        requires room { 0 < self.old.spare }
        requires empty { filters.filters ≡ [] }
        requires place { 0 < filters.spare }
        requires from_one { 1 ≤ filter.handle }
        requires handle { any_handle filter.handle self.old.masks ≡ false }
        ensures { self.new.masks ≡ self.old.masks ++ (new_mask serial mask.words filter ∷ []) }
    {
        put_handle(&mut self.handles, filter.handle);
        push_mask(&mut self.items, serial, mask, filters, filter);
    }

    /// Takes the filter with that handle out of the mask at that place, and the mask too if no filter is left
    /// in it. It takes no memory.
    pub fn take(&mut self, mask: usize, handle: u32) -> Filter
        requires { place_where (has_handle_in handle) self.old.masks ≡ Some mask }
        ensures taken { (m : PlainMask) → item_at self.old.masks mask ≡ Some m
            → find (has_handle handle) m.filters ≡ Some result }
        ensures masks { self.new.masks ≡ taken mask handle self.old.masks }
    {
        let filter = take_at(&mut self.items, mask, handle);
        drop_handle(&mut self.handles, handle);
        sweep(&mut self.items, mask);
        filter
    }

    /// Gives the filter with that handle, in the mask at that place, other actions, and answers those that it
    /// had. It takes no memory.
    pub fn set_actions(&mut self, mask: usize, handle: u32, actions: Numbers) -> Numbers
        requires { place_where (has_handle_in handle) self.old.masks ≡ Some mask }
        ensures old { (m : PlainMask) → item_at self.old.masks mask ≡ Some m
            → option_map (λ f. f.actions) (find (has_handle handle) m.filters) ≡ Some result }
        ensures masks { self.new.masks ≡ change_at mask (other_actions handle actions) self.old.masks }
    {
        act_at(&mut self.items, mask, handle, actions)
    }

    /// Moves a filter: the one of its handle leaves the mask `from`, which goes if no filter is left in it,
    /// and `filter` goes behind those of the mask `to`, which may be the same. Answers the actions of the one
    /// that left. It takes no memory.
    pub fn move_within(&mut self, from: usize, to: usize, filter: Filter) -> Numbers
        requires from { place_where (has_handle_in filter.handle) self.old.masks ≡ Some from }
        requires within { to < length self.old.masks }
        requires room { 0 < spare_at self.old.spares to }
        requires key { (m : PlainMask) → item_at self.old.masks to ≡ Some m
            → list_any (has_key filter.key.words) (without filter.handle m.filters) ≡ false }
        ensures old { (m : PlainMask) → item_at self.old.masks from ≡ Some m
            → option_map (λ f. f.actions) (find (has_handle filter.handle) m.filters) ≡ Some result }
        ensures masks { self.new.masks ≡ moved from to filter self.old.masks }
    {
        let old = take_at(&mut self.items, from, filter.handle);
        put_at(&mut self.items, to, filter);
        sweep(&mut self.items, from);
        old.actions
    }

    /// Moves a filter into a new mask behind the others. `filters` is empty and has room. All else is as in
    /// `move_within`.
    pub fn move_out(
        &mut self,
        from: usize,
        serial: u32,
        mask: Key<14>,
        filters: Filters,
        filter: Filter,
    ) -> Numbers
        requires from { place_where (has_handle_in filter.handle) self.old.masks ≡ Some from }
        requires room { 0 < self.old.spare }
        requires empty { filters.filters ≡ [] }
        requires place { 0 < filters.spare }
        ensures old { (m : PlainMask) → item_at self.old.masks from ≡ Some m
            → option_map (λ f. f.actions) (find (has_handle filter.handle) m.filters) ≡ Some result }
        ensures masks { self.new.masks ≡ moved_out from serial mask.words filter self.old.masks }
    {
        let old = take_at(&mut self.items, from, filter.handle);
        push_mask(&mut self.items, serial, mask, filters, filter);
        sweep(&mut self.items, from);
        old.actions
    }
}
