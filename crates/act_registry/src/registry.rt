//! The registry: its entries, and their names beside them.
ghost use Rattle.std.specs.Prelude.{◌≡◌, ◌<◌, ◌≤◌, ◌+◌, ◌∷◌, [], ◌++◌, ℕ, List, length, find, option_map};
ghost use Rattle.std.specs.Prelude.{Some, None, IfSome, IfOk, IfErr, OnOk, OnErr, IsSomeAnd, false};
ghost use Rattle.std.specs.Prelude.{if◌then◌else◌};
ghost use Rattle.std.specs.List.{remove};
ghost use Rattle.std.specs.Option.{IfNone, option_copied, ok_or};
ghost use Rattle.act_registry.specs.declared.fault.RegistryFault.{RegistryFault};

use crate::entry::{Entry, Kinded};
use crate::fault::RegistryFault;
use crate::limits::{ACTIONS_MAX, MADE_MAX};
use crate::names::{Name, lowest_free, place_for};
use crate::places::{place_of, place_of_serial};
use crate::room::{insert_within, push_within};
use std::alloc::Global;
use std::marker::Model;
use tc_base::NoMemory;

/// The live actions, by rising serial, with their names by kind and index.
#[derive(Drop)]
pub struct Registry<P: Kinded> {
    entries: Vec<Entry<P>>,
    names: Vec<Name>,
    made: u32,
}

impl<P: Kinded> Model for Registry<P> {
    ghost use Rattle.std.specs.Prelude.{◌-◌, length, min, vec_capacity};
    ghost use Rattle.act_registry.specs.Kept.{Kept};
    ghost use Rattle.act_registry.specs.Entries.{AreLive};
    ghost use Rattle.act_registry.specs.Names.{AreIndexed};

    ghost Value = { Kept P };

    ghost view = { λ r. record {
      entries = r.entries.items;
      made = r.made;
      spare = min (vec_capacity r.entries - length r.entries.items)
          (vec_capacity r.names - length r.names.items);
    } };

    ghost invariant = { λ r.
        AreLive P.kind_of r.entries.items r.made × AreIndexed P.kind_of r.entries.items r.names.items };
}

impl<P: Kinded> Registry<P> {
    ghost use Rattle.act_registry.specs.declared.limits.TheConstants.{ACTIONS_MAX, MADE_MAX};
    ghost use Rattle.act_registry.specs.Entries.{is_named, has_serial, bound_more, with_params, change_where};
    ghost use Rattle.act_registry.specs.Entries.{leave_out, unbound, new_entry, is_used, lowest_unused};
    ghost use Rattle.act_registry.specs.Entries.{index_for, IsLowestUnused, AreLive};
    ghost use Rattle.act_registry.specs.Kept.{refusal_of, is_taken, make_refusal, Told, delete_refusal};
    ghost use Rattle.act_registry.specs.OnePlace.{OnlyAt, NoPlace};

    /// No actions, and none made so far. It takes no memory yet.
    pub fn new(alloc: Global) -> Registry<P>
        ensures entries { result.entries ≡ [] }
        ensures made { result.made ≡ 0 }
    {
        Registry {
            entries: Vec::new(alloc),
            names: Vec::new(alloc),
            made: 0,
        }
    }

    /// Makes room for so many actions more, and changes nothing else. The lists keep the allocator that `new`
    /// was given.
    ///
    /// `NoMemory`: there was less room, and memory was refused.
    pub fn reserve(&mut self, more: u32) -> Result<(), NoMemory>
        ensures entries { self.new.entries ≡ self.old.entries }
        ensures made { self.new.made ≡ self.old.made }
        ensures room { OnOk result (more ≤ self.new.spare) }
        ensures spare { self.old.spare ≤ self.new.spare }
        ensures enough { more ≤ self.old.spare → self.new ≡ self.old }
        ensures missing { OnErr result (self.old.spare < more) }
    {
        let more = more as usize;
        if self.spare() < more {
            self.entries.reserve(more)?;
            self.names.reserve(more)?;
        }
        Ok(())
    }

    /// Makes an action, and answers its serial and its index: the given one, or the lowest from 1 that the
    /// kind doesn't use (`tcf_idr_check_alloc`, `tcf_idr_create`). A `bound` action is made by a place in a
    /// filter. Any other is held on its own, until it is deleted.
    ///
    /// `ActionExists`: a live action has the kind and the given index. `ActionsFull`: 1,024 actions are live.
    /// `CountersFull`: 16,384 were made in this run. `NoMemory`: none of these, and no room was reserved.
    pub fn make(
        &mut self,
        params: P,
        index: Option<u32>,
        bound: bool,
    ) -> Result<(u32, u32), RegistryFault>
        ensures refusal { Told (make_refusal P.kind_of (P.kind_of params) index self.old) self.old.spare
            result }
        ensures named { IfOk result (λ named. named
            ≡ (self.old.made + 1, index_for P.kind_of (P.kind_of params) self.old.entries index)) }
        ensures lowest { IfOk result
            (λ named. IfNone index (IsLowestUnused P.kind_of (P.kind_of params) self.old.entries named.1)) }
        ensures entries { IfOk result (λ named. self.new.entries ≡ self.old.entries
            ++ new_entry named.0 named.1 params bound ∷ []) }
        ensures made { OnOk result (self.new.made ≡ self.old.made + 1) }
        ensures spare { 0 < self.old.spare → OnOk result (self.new.spare + 1 ≡ self.old.spare) }
        ensures stays { OnErr result ((self.new.entries ≡ self.old.entries) × (self.new.made ≡ self.old.made)
            × (self.old.spare ≤ self.new.spare)) }
    {
        let kind = params.kind();
        self.check_make(kind, index)?;
        let index = self.index_for(kind, index);
        self.reserve(1)?;
        Ok((self.put(params, index, bound), index))
    }

    /// One more place in a filter names the action, whose serial is answered (`tcf_idr_check_alloc`).
    ///
    /// `NoSuchAction`: no live action has that kind and index.
    pub fn bind(&mut self, kind: u32, index: u32) -> Result<u32, RegistryFault>
        requires { IfSome (find (is_named P.kind_of kind index) self.old.entries)
            (λ e. e.references < 4294967295) }
        ensures serial { result
            ≡ ok_or (option_map (λ e. e.serial) (find (is_named P.kind_of kind index) self.old.entries))
            RegistryFault.NoSuchAction }
        ensures entries { OnOk result (self.new.entries
            ≡ change_where (is_named P.kind_of kind index) bound_more self.old.entries) }
        ensures made { self.new.made ≡ self.old.made }
        ensures spare { self.new.spare ≡ self.old.spare }
        ensures stays { OnErr result (self.new ≡ self.old) }
    {
        let Some(at) = self.place_of(kind, index) else {
            return Err(RegistryFault::NoSuchAction);
        };
        let entry = &mut self.entries[at];
        entry.bind();
        Ok(entry.serial)
    }

    /// One place fewer in a filter names the action with that serial, and where no one holds it then, it is
    /// gone (`__tcf_action_put`).
    pub fn unbind(&mut self, serial: u32)
        requires { IsSomeAnd (find (has_serial serial) self.old.entries) (λ e. 0 < e.binds) }
        ensures entries { self.new.entries ≡ unbound serial self.old.entries }
        ensures made { self.new.made ≡ self.old.made }
        ensures spare { self.old.spare ≤ self.new.spare }
    {
        let Some(at) = self.place_of_serial(serial) else {
            unreachable!();
        };
        if self.entries[at].references == 1 {
            self.take_out(at);
        } else {
            self.entries[at].unbind();
        }
    }

    /// Gives the action with that index and the parameters' kind these parameters. It keeps its serial, index
    /// and counts.
    ///
    /// `NoSuchAction`: no live action has the parameters' kind and that index.
    pub fn change(&mut self, index: u32, params: P) -> Result<(), RegistryFault>
        ensures refusal { refusal_of result ≡ (if is_used P.kind_of (P.kind_of params) self.old.entries index
            then None else Some RegistryFault.NoSuchAction) }
        ensures entries { OnOk result (self.new.entries
            ≡ change_where (is_named P.kind_of (P.kind_of params) index)
            (with_params params) self.old.entries) }
        ensures made { self.new.made ≡ self.old.made }
        ensures spare { self.new.spare ≡ self.old.spare }
        ensures stays { OnErr result (self.new ≡ self.old) }
    {
        let Some(at) = self.place_of(params.kind(), index) else {
            return Err(RegistryFault::NoSuchAction);
        };
        self.entries[at].params = params;
        Ok(())
    }

    /// Deletes the action with that kind and index (`tcf_idr_delete_index`).
    ///
    /// `NoSuchAction`: there is none. `ActionBound`: so many places in filters name it.
    pub fn delete(&mut self, kind: u32, index: u32) -> Result<(), RegistryFault>
        ensures refusal { refusal_of result
            ≡ delete_refusal (find (is_named P.kind_of kind index) self.old.entries) }
        ensures entries { OnOk result (self.new.entries
            ≡ leave_out (is_named P.kind_of kind index) self.old.entries) }
        ensures made { self.new.made ≡ self.old.made }
        ensures spare { self.old.spare ≤ self.new.spare }
        ensures stays { OnErr result (self.new ≡ self.old) }
    {
        let Some(at) = self.place_of(kind, index) else {
            return Err(RegistryFault::NoSuchAction);
        };
        let binds = self.entries[at].binds;
        if binds > 0 {
            return Err(RegistryFault::ActionBound { binds });
        }
        self.take_out(at);
        Ok(())
    }

    /// The entry with that kind and index.
    pub fn find(&self, kind: u32, index: u32) -> Option<&Entry<P>>
        ensures { option_copied result ≡ find (is_named P.kind_of kind index) self.now.entries }
    {
        Some(&self.entries[self.place_of(kind, index)?])
    }

    /// The entry with that serial.
    pub fn of_serial(&self, serial: u32) -> Option<&Entry<P>>
        ensures { option_copied result ≡ find (has_serial serial) self.now.entries }
    {
        Some(&self.entries[self.place_of_serial(serial)?])
    }

    /// The live entries, by rising serial.
    pub fn entries(&self) -> &[Entry<P>]
        ensures entries { result.now ≡ self.now.entries }
        ensures live { AreLive P.kind_of self.now.entries self.now.made }
    {
        &self.entries
    }

    /// How many actions were made so far in this run.
    pub fn made(&self) -> u32
        ensures { result ≡ self.now.made }
    {
        self.made
    }

    /// Whether `make` would make an action of that kind, with that index if one is given. Want of memory is
    /// not looked at.
    ///
    /// `ActionExists`: a live action has the kind and the given index. `ActionsFull`: 1,024 actions are live.
    /// `CountersFull`: 16,384 were made in this run.
    pub fn check_make(&self, kind: u32, index: Option<u32>) -> Result<(), RegistryFault>
        ensures { refusal_of result ≡ make_refusal P.kind_of kind index self.now }
    {
        if self.is_taken(kind, index) {
            return Err(RegistryFault::ActionExists);
        }
        if self.entries.len() >= ACTIONS_MAX {
            return Err(RegistryFault::ActionsFull);
        }
        if self.made >= MADE_MAX {
            return Err(RegistryFault::CountersFull);
        }
        Ok(())
    }

    /// The lowest index from 1 that the kind doesn't use: the one that `make` gives where none is given.
    pub fn free_index(&self, kind: u32) -> u32
        ensures index { result ≡ lowest_unused P.kind_of kind self.now.entries }
        ensures lowest { IsLowestUnused P.kind_of kind self.now.entries result }
    {
        self.index_for(kind, None)
    }

    // Where the entry with that kind and index stands.
    fn place_of(&self, kind: u32, index: u32) -> Option<usize>
        ensures here { IfSome result (λ at. OnlyAt (is_named P.kind_of kind index) self.now.entries at) }
        ensures none { IfNone result (NoPlace (is_named P.kind_of kind index) self.now.entries) }
    {
        place_of(&self.entries, &self.names, kind, index)
    }

    // Where the entry with that serial stands.
    fn place_of_serial(&self, serial: u32) -> Option<usize>
        ensures here { IfSome result (λ at. OnlyAt (has_serial serial) self.now.entries at) }
        ensures none { IfNone result (NoPlace (has_serial serial) self.now.entries) }
    {
        place_of_serial(&self.entries, serial)
    }

    // For how many actions more there is room.
    fn spare(&self) -> usize
        ensures { result ≡ self.now.spare }
    {
        let entries = self.entries.capacity() - self.entries.len();
        let names = self.names.capacity() - self.names.len();
        entries.min(names)
    }

    // Whether an action of the kind has the given index.
    fn is_taken(&self, kind: u32, index: Option<u32>) -> bool
        ensures { result ≡ is_taken P.kind_of kind self.now.entries index }
    {
        match index {
            Some(index) => self.place_of(kind, index).is_some(),
            None => false,
        }
    }

    // The index that a new action gets.
    fn index_for(&self, kind: u32, index: Option<u32>) -> u32
        requires new { is_taken P.kind_of kind self.now.entries index ≡ false }
        ensures index { result ≡ index_for P.kind_of kind self.now.entries index }
        ensures free { NoPlace (is_named P.kind_of kind result) self.now.entries }
        ensures lowest { IfNone index (IsLowestUnused P.kind_of kind self.now.entries result) }
    {
        match index {
            Some(index) => index,
            None => lowest_free(&self.names, kind),
        }
    }

    // Puts a new entry behind the others, and its name in its place. There is room for both.
    fn put(&mut self, params: P, index: u32, bound: bool) -> u32
        requires room { 0 < self.old.spare }
        requires few { length self.old.entries < ACTIONS_MAX }
        requires in_run { self.old.made < MADE_MAX }
        requires free { NoPlace (is_named P.kind_of (P.kind_of params) index) self.old.entries }
        ensures serial { result ≡ self.old.made + 1 }
        ensures entries { self.new.entries ≡ self.old.entries
            ++ new_entry (self.old.made + 1) index params bound ∷ [] }
        ensures made { self.new.made ≡ self.old.made + 1 }
        ensures spare { self.new.spare + 1 ≡ self.old.spare }
    {
        let serial = self.made + 1;
        let kind = params.kind();
        let place = place_for(&self.names, kind, index);
        insert_within(
            &mut self.names,
            place,
            Name {
                kind,
                index,
                serial,
            },
        );
        push_within(&mut self.entries, Entry::new(serial, index, params, bound));
        self.made = serial;
        serial
    }

    // Takes the entry at that place out, with its name, and drops it. The later ones move up.
    fn take_out(&mut self, at: usize)
        requires { at < length self.old.entries }
        ensures entries { self.new.entries ≡ remove self.old.entries at }
        ensures made { self.new.made ≡ self.old.made }
        ensures spare { self.old.spare ≤ self.new.spare }
    {
        let entry = self.entries.remove(at);
        let place = place_for(&self.names, entry.params.kind(), entry.index);
        self.names.remove(place);
    }
}
