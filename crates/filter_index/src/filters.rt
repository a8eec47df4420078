//! The filters of one mask, and two indexes beside them.
ghost use Rattle.std.specs.Prelude.{◌≡◌, ◌<◌, ◌≤◌, ◌++◌, ◌∷◌, [], length, find, option_map, Some, IsSome};
ghost use Rattle.std.specs.Prelude.{IsOk, IfOk, OnOk, OnErr, ◌+◌, true, false, ◌==◌, map};
ghost use Rattle.std.specs.Option.{option_copied};
ghost use Rattle.std.specs.List.{list_any};
ghost use Rattle.filter_index.specs.declared.filter.Filter.{Filter};
ghost use Rattle.filter_index.specs.Listed.{has_key, those_there, AreApart};
ghost use Rattle.std.specs.List.{All};
ghost use Rattle.flow_mask.specs.Masks.{each_and};
ghost use Rattle.flow_mask.specs.Places.{HasPlaces};
ghost use Rattle.filter_index.specs.Digests.{digest_of};
ghost use Rattle.filter_index.specs.Places.{digest_in};
ghost use Rattle.filter_index.specs.Sieves.{sum_of, LooksAt, IsWithin, AreCovered};

use crate::chains::Chains;
use crate::digests::digest;
use crate::filter::Filter;
use crate::room::point;
use crate::sieve::Sieve;
use flow_fields::Key;
use std::alloc::Global;
use std::collections::HashMap;
use std::marker::Model;
use tc_base::{NoMemory, Numbers};

// The least room that filters are moved into (this project's own).
const ROOM_LEAST: usize = 8;

/// The filters of one mask, in the order in which they were accepted.
#[derive(Drop)]
pub struct Filters {
    // In order. A filter that was taken out leaves its slot empty, so that no later one moves.
    slots: Vec<Option<Filter>>,
    // The slot of each handle.
    handles: HashMap<u32, usize>,
    // The slots of each digest of a key.
    chains: Chains,
}

impl Model for Filters {
    ghost use Rattle.std.specs.Prelude.{◌-◌, length, min, vec_capacity};
    ghost use Rattle.std.specs.HashMap as hash_maps;
    ghost use Rattle.filter_index.specs.Listed.{FilterRoom, those_there};
    ghost use Rattle.filter_index.specs.Places.{AreIndexed};

    ghost Value = { FilterRoom };

    ghost view = { λ l. record {
      filters = those_there l.slots.items;
      spare = min (vec_capacity l.slots - length l.slots.items)
          (min (hash_maps.spare l.handles) l.chains.spare);
    } };

    ghost invariant = { λ l. AreIndexed l.handles l.chains.digests l.slots.items };
}

impl Filters {
    ghost use Rattle.filter_index.specs.Listed.{has_handle, has_key, without, with_actions, those_there};
    ghost use Rattle.filter_index.specs.Listed.{AreApart};

    /// No filters. It takes no memory yet.
    pub fn new(alloc: Global) -> Filters
        ensures { result.filters ≡ [] }
    {
        Filters {
            slots: Vec::new(alloc),
            handles: HashMap::new(alloc),
            chains: Chains::new(alloc),
        }
    }

    /// Makes room for one filter more, and changes nothing else. Empty slots are given up on the way, once
    /// they are half of the slots or more and no slot is left.
    ///
    /// `NoMemory`: there was no room, and memory was refused.
    pub fn reserve(&mut self) -> Result<(), NoMemory>
        ensures filters { self.new.filters ≡ self.old.filters }
        ensures room { OnOk result (0 < self.new.spare) }
        ensures spare { self.old.spare ≤ self.new.spare }
        ensures enough { 0 < self.old.spare → IsOk result }
    {
        if self.is_sparse() {
            return self.move_anew(self.room_anew());
        }
        if self.chains.is_full() {
            return self.move_anew(self.room_anew());
        }
        self.slots.reserve(1)?;
        self.handles.reserve(1)?;
        self.chains.reserve()?;
        Ok(())
    }

    /// Puts a filter behind the others. It takes no memory.
    pub fn push(&mut self, filter: Filter)
        requires room { 0 < self.old.spare }
        requires handle { list_any (has_handle filter.handle) self.old.filters ≡ false }
        requires key { list_any (has_key filter.key.words) self.old.filters ≡ false }
        ensures filters { self.new.filters ≡ self.old.filters ++ filter ∷ [] }
        ensures spare { self.old.spare ≤ self.new.spare + 1 }
    {
        let at = self.slots.len();
        point(&mut self.handles, filter.handle, at);
        self.chains.push(digest(&filter.key.words));
        self.slots.push_reserved(Some(filter));
    }

    /// The filter with that key.
    pub fn with_key(&self, key: &Key<14>) -> Option<&Filter>
        ensures { option_copied result ≡ find (has_key key.now.words) self.now.filters }
    {
        with_words(&self.chains, &self.slots, &key.words)
    }

    /// The filter whose key is that of a frame under the mask. `sum` is what the mask's sieve makes of the
    /// frame's key. Of that key and the filters' it reads the mask's words alone.
    #[inline]
    pub fn with_frame(
        &self,
        sieve: &Sieve,
        mask: &Key<14>,
        frame: &Key<14>,
        sum: u64,
    ) -> Option<&Filter>
        requires looks { LooksAt mask.now.words sieve.now }
        requires covered { AreCovered mask.now.words self.now.filters }
        requires sum { sum ≡ sum_of sieve.now frame.now.words }
        ensures { option_copied result
            ≡ find (has_key (each_and frame.now.words mask.now.words)) self.now.filters }
    {
        with_masked(
            &self.chains,
            &self.slots,
            sieve,
            &mask.words,
            &frame.words,
            sum,
        )
    }

    /// The filter with that handle.
    pub fn with_handle(&self, handle: u32) -> Option<&Filter>
        ensures { option_copied result ≡ find (has_handle handle) self.now.filters }
    {
        let at = *self.handles.get(&handle)?;
        self.slots[at].as_ref()
    }

    /// Takes the filter with that handle out. It takes no memory.
    pub fn take(&mut self, handle: u32) -> Filter
        requires { list_any (has_handle handle) self.old.filters ≡ true }
        ensures taken { Some result ≡ find (has_handle handle) self.old.filters }
        ensures filters { self.new.filters ≡ without handle self.old.filters }
        ensures spare { self.old.spare ≤ self.new.spare }
    {
        let Some(at) = self.handles.remove(&handle) else {
            unreachable!();
        };
        let Some(filter) = self.slots[at].take() else {
            unreachable!();
        };
        self.chains.remove(digest(&filter.key.words), at);
        filter
    }

    /// Gives the filter with that handle other actions, and answers those that it had.
    pub fn set_actions(&mut self, handle: u32, actions: Numbers) -> Numbers
        requires { list_any (has_handle handle) self.old.filters ≡ true }
        ensures old { Some result ≡ option_map (λ f. f.actions) (find (has_handle handle) self.old.filters) }
        ensures filters { self.new.filters ≡ with_actions handle actions self.old.filters }
        ensures spare { self.new.spare ≡ self.old.spare }
    {
        let Some(at) = self.handles.get(&handle).copied() else {
            unreachable!();
        };
        exchange_actions(&mut self.slots[at], actions)
    }

    /// How many filters there are.
    pub fn len(&self) -> usize
        ensures { result ≡ length self.now.filters }
    {
        self.handles.len()
    }

    /// Whether there are none.
    pub fn is_empty(&self) -> bool
        ensures { result ≡ (length self.now.filters == 0) }
    {
        self.len() == 0
    }

    /// The slots, of which some may be empty.
    pub fn slots(&self) -> &[Option<Filter>]
        ensures filters { those_there result.now ≡ self.now.filters }
        ensures apart { AreApart self.now.filters }
    {
        &self.slots
    }

    // No filters, and room for so many.
    fn with_room(alloc: Global, room: usize) -> Result<Filters, NoMemory>
        ensures filters { IfOk result (λ f. f.filters ≡ []) }
        ensures room { IfOk result (λ f. room ≤ f.spare) }
    {
        Ok(Filters {
            slots: Vec::with_capacity(alloc, room)?,
            handles: HashMap::with_capacity(alloc, room)?,
            chains: Chains::with_room(alloc, room)?,
        })
    }

    // Whether no slot is left, and half of the slots or more are empty.
    fn is_sparse(&self) -> bool
        ensures { result ≡ true → self.now.spare ≡ 0 }
    {
        let slots = self.slots.len();
        slots == self.slots.capacity() && self.len() <= slots / 2
    }

    // Twice the room that the filters need.
    fn room_anew(&self) -> usize
        ensures { length self.now.filters < result }
    {
        (self.handles.len() * 2).max(ROOM_LEAST)
    }

    // Moves the filters together, into room for so many. The room is taken before the first is moved.
    fn move_anew(&mut self, room: usize) -> Result<(), NoMemory>
        requires { length self.old.filters < room }
        ensures filters { self.new.filters ≡ self.old.filters }
        ensures room { OnOk result (0 < self.new.spare) }
        ensures stays { OnErr result (self.new ≡ self.old) }
    {
        let mut moved = Filters::with_room(*self.slots.allocator(), room)?;
        std::mem::swap(self, &mut moved);
        self.take_over(moved);
        Ok(())
    }

    // Takes over the filters of another.
    fn take_over(&mut self, from: Filters)
        requires empty { self.old.filters ≡ [] }
        requires room { length from.filters ≤ self.old.spare }
        ensures filters { self.new.filters ≡ from.filters }
        ensures spare { self.old.spare ≤ self.new.spare + length from.filters }
    {
        let Filters { slots, .. } = from;
        for slot in slots {
            if let Some(filter) = slot {
                self.push(filter);
            }
        }
    }
}

// Gives the filter in that slot other actions, and answers those that it had.
fn exchange_actions(slot: &mut Option<Filter>, actions: Numbers) -> Numbers
    requires { IsSome slot.old }
    ensures old { Some result ≡ option_map (λ f. f.actions) slot.old }
    ensures slot { slot.new ≡ option_map {T = Filter} (λ f. record f { actions = actions }) slot.old }
{
    match slot {
        Some(filter) => std::mem::replace(&mut filter.actions, actions),
        None => unreachable!(),
    }
}

// The filter with those words for its key.
#[inline]
fn with_words<'a>(chains: &Chains, slots: &'a [Option<Filter>], key: &[u64]) -> Option<&'a Filter>
    requires digests { chains.now.digests ≡ map digest_in slots.now }
    requires apart { AreApart (those_there slots.now) }
    requires key { length key.now ≡ 14 }
    ensures { option_copied result ≡ find (has_key key.now) (those_there slots.now) }
{
    let sought = digest(key);
    let mut at = chains.last(sought);
    while at != 0 {
        let slot = (at - 1) as usize;
        if let Some(filter) = if_words(&slots[slot], key) {
            return Some(filter);
        }
        at = chains.before(sought, slot);
    }
    None
}

// The filter in that slot, if it has those words for its key.
#[inline]
fn if_words<'a>(slot: &'a Option<Filter>, key: &[u64]) -> Option<&'a Filter>
    ensures { option_copied result ≡ find (has_key key.now) (those_there (slot.now ∷ [])) }
{
    match slot {
        Some(filter) if filter.key.words.as_slice() == key => Some(filter),
        _ => None,
    }
}

// The filter whose key is the frame's under the mask.
#[inline]
fn with_masked<'a>(
    chains: &Chains,
    slots: &'a [Option<Filter>],
    sieve: &Sieve,
    mask: &[u64],
    frame: &[u64],
    sought: u64,
) -> Option<&'a Filter>
    requires digests { chains.now.digests ≡ map digest_in slots.now }
    requires apart { AreApart (those_there slots.now) }
    requires mask { length mask.now ≡ 14 }
    requires frame { length frame.now ≡ 14 }
    requires listed { HasPlaces mask.now 14 sieve.now.places sieve.now.count }
    requires within { All (λ f. IsWithin mask.now f.key.words) (those_there slots.now) }
    requires sought { sought ≡ digest_of (each_and frame.now mask.now) }
    ensures { option_copied result
        ≡ find (has_key (each_and frame.now mask.now)) (those_there slots.now) }
{
    let mut at = chains.last(sought);
    while at != 0 {
        let slot = (at - 1) as usize;
        if let Some(filter) = if_masked(&slots[slot], sieve, mask, frame) {
            return Some(filter);
        }
        at = chains.before(sought, slot);
    }
    None
}

// The filter in that slot, if its key is the frame's under the mask.
#[inline]
fn if_masked<'a>(
    slot: &'a Option<Filter>,
    sieve: &Sieve,
    mask: &[u64],
    frame: &[u64],
) -> Option<&'a Filter>
    requires mask { length mask.now ≡ 14 }
    requires frame { length frame.now ≡ 14 }
    requires listed { HasPlaces mask.now 14 sieve.now.places sieve.now.count }
    requires within { (f : Filter) → slot.now ≡ Some f → IsWithin mask.now f.key.words }
    ensures { option_copied result
        ≡ find (has_key (each_and frame.now mask.now)) (those_there (slot.now ∷ [])) }
{
    match slot {
        Some(filter) if sieve.agrees(mask, frame, &filter.key.words) => Some(filter),
        _ => None,
    }
}
