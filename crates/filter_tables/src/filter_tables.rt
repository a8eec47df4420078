//! The tables of one hook.
ghost use Rattle.std.specs.Prelude.{◌≡◌, ◌==◌, ◌<◌, ◌≤◌, [], length, map, find, option_map, Some, OnOk, true};
ghost use Rattle.std.specs.Prelude.{false};
ghost use Rattle.std.specs.List.{list_any};
ghost use Rattle.filter_index.specs.Listed.{has_handle, has_key, without};
ghost use Rattle.filter_tables.specs.Plain.{PlainMask, PlainTable};
ghost use Rattle.filter_tables.specs.Places.{change_at, item_at, place_where, without_at};
ghost use Rattle.filter_tables.specs.Room.{AreRising, masks_spare, filters_spare};
ghost use Rattle.filter_tables.specs.Seen.{plain_table};
ghost use Rattle.filter_tables.specs.Changes.{has_handle_in, has_key_in, any_handle, more_filter, new_mask};
ghost use Rattle.filter_tables.specs.Changes.{other_actions, taken, moved, moved_out, is_table, in_masks};
ghost use Rattle.filter_tables.specs.Changes.{removed, cleared, with_table};

use crate::filter_table::FilterTable;
use crate::room::insert_within;
use crate::table_places::{first_pref, place_for, place_of};
use filter_index::{Filter, Filters};
use flow_fields::Key;
use std::alloc::Global;
use std::marker::Model;
use tc_base::{NoMemory, Numbers};

/// The tables of one hook, by rising chain, then rising pref. No two have the same chain and pref.
#[derive(Drop)]
pub struct FilterTables {
    items: Vec<FilterTable>,
}

impl Model for FilterTables {
    ghost use Rattle.std.specs.Prelude.{◌-◌, length, map, vec_capacity};
    ghost use Rattle.filter_tables.specs.Room.{TableRoom, AreRising};
    ghost use Rattle.filter_tables.specs.Seen.{plain_table};
    ghost use Rattle.filter_tables.specs.SeenSpare.{table_spare};

    ghost Value = { TableRoom };

    ghost view = { λ l. record {
      tables = map plain_table l.items.items;
      spare = vec_capacity l.items - length l.items.items;
      spares = map table_spare l.items.items;
    } };

    ghost invariant = { λ l. AreRising (map plain_table l.items.items) };
}

impl FilterTables {
    ghost use Rattle.std.specs.Prelude.{◌++◌, ◌∷◌};

    /// No tables. It takes no memory yet.
    pub fn new(alloc: Global) -> FilterTables
        ensures { result.tables ≡ [] }
    {
        FilterTables {
            items: Vec::new(alloc),
        }
    }

    /// The tables, by rising chain, then rising pref. Who looks something up in one goes by its `masks`.
    pub fn as_slice(&self) -> &[FilterTable]
        ensures tables { map plain_table result.now ≡ self.now.tables }
        ensures rising { AreRising self.now.tables }
    {
        &self.items
    }

    /// The place of the table with that chain and pref.
    pub fn find(&self, chain: u32, pref: u32) -> Option<usize>
        ensures { result ≡ place_where (is_table chain pref) self.now.tables }
    {
        place_of(&self.items, chain, pref)
    }

    /// The lowest pref of the tables of that chain.
    pub fn lowest_pref(&self, chain: u32) -> Option<u32>
        ensures { result ≡ option_map (λ t. t.pref) (find (λ t. t.chain == chain) self.now.tables) }
    {
        first_pref(&self.items, chain)
    }

    /// Makes room for one table more, and changes nothing else.
    ///
    /// `NoMemory`: there was no room, and memory was refused.
    pub fn reserve(&mut self) -> Result<(), NoMemory>
        ensures tables { self.new.tables ≡ self.old.tables }
        ensures room { OnOk result (0 < self.new.spare) }
    {
        self.items.reserve(1)?;
        Ok(())
    }

    /// Makes room for one mask more in the table at that place, and changes nothing else.
    ///
    /// `NoMemory`: there was no room, and memory was refused.
    pub fn reserve_mask(&mut self, table: usize) -> Result<(), NoMemory>
        requires { table < length self.old.tables }
        ensures tables { self.new.tables ≡ self.old.tables }
        ensures room { OnOk result (0 < masks_spare self.new.spares table) }
    {
        self.items[table].masks.reserve()
    }

    /// Makes room for one filter more in a mask of the table at that place, and changes nothing else.
    ///
    /// `NoMemory`: there was no room, and memory was refused.
    pub fn reserve_filter(&mut self, table: usize, mask: usize) -> Result<(), NoMemory>
        requires table { table < length self.old.tables }
        requires mask { (t : PlainTable) → item_at self.old.tables table ≡ Some t → mask < length t.masks }
        ensures tables { self.new.tables ≡ self.old.tables }
        ensures room { OnOk result (0 < filters_spare self.new.spares table mask) }
    {
        self.items[table].masks.reserve_in(mask)
    }

    /// Puts a table in its place. It takes no memory.
    pub fn insert(&mut self, table: FilterTable)
        requires room { 0 < self.old.spare }
        requires new { list_any (is_table table.chain table.pref) self.old.tables ≡ false }
        ensures { self.new.tables ≡ with_table (plain_table table) self.old.tables }
    {
        let place = place_for(&self.items, table.chain, table.pref);
        insert_within(&mut self.items, place, table);
    }

    /// Takes the table at that place out. It takes no memory.
    pub fn remove(&mut self, table: usize) -> FilterTable
        requires { table < length self.old.tables }
        ensures table { item_at self.old.tables table ≡ Some (plain_table result) }
        ensures tables { self.new.tables ≡ without_at table self.old.tables }
    {
        self.items.remove(table)
    }

    /// Puts a filter into a mask of the table at that place, as `MaskLists::put`.
    pub fn put(&mut self, table: usize, mask: usize, filter: Filter)
        requires table { table < length self.old.tables }
        requires room { 0 < filters_spare self.old.spares table mask }
        requires within { (t : PlainTable) → item_at self.old.tables table ≡ Some t → mask < length t.masks }
        requires from_one { 1 ≤ filter.handle }
        requires handle { (t : PlainTable) → item_at self.old.tables table ≡ Some t
            → any_handle filter.handle t.masks ≡ false }
        requires key { (t : PlainTable) → item_at self.old.tables table ≡ Some t → (m : PlainMask)
            → item_at t.masks mask ≡ Some m → has_key_in filter.key.words m ≡ false }
        ensures { self.new.tables
            ≡ change_at table (in_masks (change_at mask (more_filter filter))) self.old.tables }
    {
        self.items[table].masks.put(mask, filter);
    }

    /// Puts a mask with its first filter into the table at that place, as `MaskLists::put_mask`.
    pub fn put_mask(
        &mut self,
        table: usize,
        serial: u32,
        mask: Key<14>,
        filters: Filters,
        filter: Filter,
    )
        requires table { table < length self.old.tables }
        requires room { 0 < masks_spare self.old.spares table }
        requires empty { filters.filters ≡ [] }
        requires place { 0 < filters.spare }
        requires from_one { 1 ≤ filter.handle }
        requires handle { (t : PlainTable) → item_at self.old.tables table ≡ Some t
            → any_handle filter.handle t.masks ≡ false }
        ensures { self.new.tables
            ≡ change_at table (in_masks (λ masks. masks ++ (new_mask serial mask.words filter ∷ [])))
            self.old.tables }
    {
        self.items[table]
            .masks
            .put_mask(serial, mask, filters, filter);
    }

    /// Takes the filter with that handle out of a mask of the table at that place, with the mask and the
    /// table if nothing is left in them. It takes no memory.
    pub fn take(&mut self, table: usize, mask: usize, handle: u32) -> Filter
        requires table { table < length self.old.tables }
        requires handle { (t : PlainTable) → item_at self.old.tables table ≡ Some t
            → place_where (has_handle_in handle) t.masks ≡ Some mask }
        ensures taken { (t : PlainTable) → item_at self.old.tables table ≡ Some t → (m : PlainMask)
            → item_at t.masks mask ≡ Some m → find (has_handle handle) m.filters ≡ Some result }
        ensures tables { self.new.tables ≡ removed table mask handle self.old.tables }
    {
        let filter = self.take_from(table, mask, handle);
        self.clear(table);
        filter
    }

    /// Gives a filter of the table at that place other actions, as `MaskLists::set_actions`.
    pub fn set_actions(
        &mut self,
        table: usize,
        mask: usize,
        handle: u32,
        actions: Numbers,
    ) -> Numbers
        requires table { table < length self.old.tables }
        requires handle { (t : PlainTable) → item_at self.old.tables table ≡ Some t
            → place_where (has_handle_in handle) t.masks ≡ Some mask }
        ensures old { (t : PlainTable) → item_at self.old.tables table ≡ Some t → (m : PlainMask)
            → item_at t.masks mask ≡ Some m → option_map (λ f. f.actions) (find (has_handle handle) m.filters)
            ≡ Some result }
        ensures tables { self.new.tables
            ≡ change_at table (in_masks (change_at mask (other_actions handle actions))) self.old.tables }
    {
        self.items[table].masks.set_actions(mask, handle, actions)
    }

    /// Moves a filter of the table at that place, as `MaskLists::move_within`.
    pub fn move_within(&mut self, table: usize, from: usize, to: usize, filter: Filter) -> Numbers
        requires table { table < length self.old.tables }
        requires from { (t : PlainTable) → item_at self.old.tables table ≡ Some t
            → place_where (has_handle_in filter.handle) t.masks ≡ Some from }
        requires within { (t : PlainTable) → item_at self.old.tables table ≡ Some t → to < length t.masks }
        requires room { 0 < filters_spare self.old.spares table to }
        requires key { (t : PlainTable) → item_at self.old.tables table ≡ Some t → (m : PlainMask)
            → item_at t.masks to ≡ Some m
            → list_any (has_key filter.key.words) (without filter.handle m.filters) ≡ false }
        ensures old { (t : PlainTable) → item_at self.old.tables table ≡ Some t → (m : PlainMask)
            → item_at t.masks from ≡ Some m
            → option_map (λ f. f.actions) (find (has_handle filter.handle) m.filters) ≡ Some result }
        ensures tables { self.new.tables ≡ change_at table (in_masks (moved from to filter)) self.old.tables }
    {
        self.items[table].masks.move_within(from, to, filter)
    }

    /// Moves a filter of the table at that place into a new mask, as `MaskLists::move_out`.
    pub fn move_out(
        &mut self,
        table: usize,
        from: usize,
        serial: u32,
        mask: Key<14>,
        filters: Filters,
        filter: Filter,
    ) -> Numbers
        requires table { table < length self.old.tables }
        requires from { (t : PlainTable) → item_at self.old.tables table ≡ Some t
            → place_where (has_handle_in filter.handle) t.masks ≡ Some from }
        requires room { 0 < masks_spare self.old.spares table }
        requires empty { filters.filters ≡ [] }
        requires place { 0 < filters.spare }
        ensures old { (t : PlainTable) → item_at self.old.tables table ≡ Some t → (m : PlainMask)
            → item_at t.masks from ≡ Some m
            → option_map (λ f. f.actions) (find (has_handle filter.handle) m.filters) ≡ Some result }
        ensures tables { self.new.tables
            ≡ change_at table (in_masks (moved_out from serial mask.words filter)) self.old.tables }
    {
        self.items[table]
            .masks
            .move_out(from, serial, mask, filters, filter)
    }

    // Takes the filter with that handle out of a mask of the table at that place, which stays even if it is
    // left empty.
    fn take_from(&mut self, table: usize, mask: usize, handle: u32) -> Filter
        requires table { table < length self.old.tables }
        requires handle { (t : PlainTable) → item_at self.old.tables table ≡ Some t
            → place_where (has_handle_in handle) t.masks ≡ Some mask }
        ensures taken { (t : PlainTable) → item_at self.old.tables table ≡ Some t → (m : PlainMask)
            → item_at t.masks mask ≡ Some m → find (has_handle handle) m.filters ≡ Some result }
        ensures tables { self.new.tables ≡ change_at table (in_masks (taken mask handle)) self.old.tables }
        ensures len { length self.new.tables ≡ length self.old.tables }
    {
        self.items[table].masks.take(mask, handle)
    }

    // Takes the table at that place out, if no mask is left in it.
    fn clear(&mut self, table: usize)
        requires { table < length self.old.tables }
        ensures { self.new.tables ≡ cleared table self.old.tables }
    {
        if self.items[table].masks.as_slice().is_empty() {
            self.items.remove(table);
        }
    }
}
