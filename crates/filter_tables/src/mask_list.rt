//! A mask with its filters.
ghost use Rattle.std.specs.Prelude.{◌≡◌, ◌<◌, ◌≤◌, [], find, option_map, Some, OnOk, true, false};
ghost use Rattle.std.specs.Option.{option_copied};
ghost use Rattle.flow_mask.specs.Masks.{each_and};
ghost use Rattle.filter_index.specs.Listed.{has_handle, has_key};
ghost use Rattle.filter_tables.specs.SeenMask.{plain_mask};
ghost use Rattle.filter_tables.specs.SeenRoom.{filter_room};
ghost use Rattle.filter_tables.specs.Changes.{has_handle_in, has_key_in, more_filter, less_filter};
ghost use Rattle.filter_tables.specs.Changes.{other_actions, new_mask};

use filter_index::{Filter, Filters, Sieve};
use flow_fields::Key;
use flow_mask::masked;
use std::marker::Model;
use tc_base::{NoMemory, Numbers};

/// The filters of one mask of a table, in the order in which they were accepted.
#[derive(Drop)]
pub struct MaskList {
    // The first three are all that a look-up reads whose frame the sieve holds back.
    serial: u32,
    // Whether the words that the sieve looks at are all that tells the filters apart.
    is_covered: bool,
    sieve: Sieve,
    mask: Key<14>,
    filters: Filters,
}

impl Model for MaskList {
    ghost use Rattle.std.specs.Prelude.{◌≡◌, true};
    ghost use Rattle.filter_index.specs.Sieves.{LooksAt, LetsAll, AreCovered};
    ghost use Rattle.filter_tables.specs.SievedMask.{SievedMask};

    ghost Value = { SievedMask };

    ghost view = { λ m. record { serial = m.serial; mask = m.mask; filters = m.filters } };

    ghost invariant = { λ m. LooksAt m.mask.words m.sieve × LetsAll m.sieve m.filters.filters
        × (m.is_covered ≡ true → AreCovered m.mask.words m.filters.filters) };
}

impl MaskList {
    /// A mask with its first filter. `filters` is empty and has room. It takes no memory.
    pub(crate) fn new(serial: u32, mask: Key<14>, mut filters: Filters, filter: Filter) -> MaskList
        requires empty { filters.filters ≡ [] }
        requires place { 0 < filters.spare }
        ensures { plain_mask result ≡ new_mask serial mask.words filter }
    {
        let is_covered = Sieve::covers(&mask, &filter.key);
        let mut sieve = Sieve::new(&mask);
        sieve.add(&filter.key);
        filters.push(filter);
        MaskList {
            serial,
            is_covered,
            sieve,
            mask,
            filters,
        }
    }

    /// The serial: counted from 1 over a run, and never given twice.
    #[inline]
    pub fn serial(&self) -> u32
        ensures { result ≡ self.now.serial }
    {
        self.serial
    }

    /// The mask's words.
    #[inline]
    pub fn mask(&self) -> &Key<14>
        ensures { result.now ≡ self.now.mask }
    {
        &self.mask
    }

    /// The filters, in the order in which they were accepted.
    #[inline]
    pub fn filters(&self) -> &Filters
        ensures { result.now ≡ self.now.filters }
    {
        &self.filters
    }

    /// The filter that a frame of that key meets: the one whose key is the frame's under the mask.
    #[inline]
    pub fn met(&self, frame: &Key<14>) -> Option<&Filter>
        ensures { option_copied result
            ≡ find (has_key (each_and frame.now.words self.now.mask.words)) self.now.filters.filters }
    {
        let sum = self.sieve.sift(frame)?;
        if self.is_covered {
            self.filters.with_frame(&self.sieve, &self.mask, frame, sum)
        } else {
            self.filters.with_key(&masked(frame, &self.mask))
        }
    }

    /// Makes room for one filter more.
    pub(crate) fn reserve(&mut self) -> Result<(), NoMemory>
        ensures mask { plain_mask self.new ≡ plain_mask self.old }
        ensures room { OnOk result (0 < filter_room self.new) }
    {
        self.filters.reserve()
    }

    /// Puts a filter behind the others.
    pub(crate) fn put(&mut self, filter: Filter)
        requires room { 0 < filter_room self.old }
        requires handle { has_handle_in filter.handle (plain_mask self.old) ≡ false }
        requires key { has_key_in filter.key.words (plain_mask self.old) ≡ false }
        ensures mask { plain_mask self.new ≡ more_filter filter (plain_mask self.old) }
    {
        self.is_covered &= Sieve::covers(&self.mask, &filter.key);
        self.sieve.add(&filter.key);
        self.filters.push(filter);
    }

    /// Takes the filter with that handle out. The sieve keeps its mark.
    pub(crate) fn take(&mut self, handle: u32) -> Filter
        requires { has_handle_in handle (plain_mask self.old) ≡ true }
        ensures taken { find (has_handle handle) (plain_mask self.old).filters ≡ Some result }
        ensures mask { plain_mask self.new ≡ less_filter handle (plain_mask self.old) }
        ensures spare { filter_room self.old ≤ filter_room self.new }
    {
        self.filters.take(handle)
    }

    /// Gives the filter with that handle other actions.
    pub(crate) fn set_actions(&mut self, handle: u32, actions: Numbers) -> Numbers
        requires { has_handle_in handle (plain_mask self.old) ≡ true }
        ensures old { option_map (λ f. f.actions) (find (has_handle handle) (plain_mask self.old).filters)
            ≡ Some result }
        ensures mask { plain_mask self.new ≡ other_actions handle actions (plain_mask self.old) }
    {
        self.filters.set_actions(handle, actions)
    }
}
