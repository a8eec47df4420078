//! The pasts of all filters.

use crate::index::put_place;
use crate::named::NamedPast;
use crate::past::Past;
use std::alloc::Global;
use std::collections::HashMap;
use std::marker::Model;
use tc_base::{NoMemory, Point};

/// What stood under each name over time, or that it was gone: of a filter the serials of its actions, say. A
/// name is the serial of a mask and the fourteen words of a key.
#[derive(Drop)]
pub struct SlotPasts<V> {
    alloc: Global,
    places: HashMap<[u64; 15], usize>,
    entries: Vec<NamedPast<V>>,
}

impl<V> Model for SlotPasts<V> {
    ghost use Rattle.std.specs.Prelude.{List};
    ghost use Rattle.slot_pasts.specs.declared.named.NamedPast.{NamedPast};
    ghost use Rattle.slot_pasts.specs.Names.{IsIndexed};

    ghost Value = { List (NamedPast V) };

    ghost view = { λ l. l.entries.items };

    ghost invariant = { λ l. IsIndexed l.places l.entries.items };
}

impl<V: Drop> SlotPasts<V> {
    ghost use Rattle.std.specs.Prelude.{◌≡◌, ◌++◌, ◌∷◌, [], ℕ, List, OnOk, OnErr, if◌then◌else◌};
    ghost use Rattle.std.specs.Option.{option_copied};
    ghost use Rattle.std.specs.Str.{bytes_eq};
    ghost use Rattle.slot_pasts.specs.Pasts.{value_at, UpTo, stood};
    ghost use Rattle.slot_pasts.specs.Names.{past_of, past_with};
    ghost use Rattle.slot_pasts.specs.Next.{IsNextPut, IsSteady};

    /// Nothing stood anywhere.
    pub fn new(alloc: Global) -> SlotPasts<V>
        ensures { result ≡ [] }
    {
        SlotPasts {
            alloc,
            places: HashMap::new(alloc),
            entries: Vec::new(alloc),
        }
    }

    /// What stood under a name at a point; nothing, where nothing ever did.
    pub fn at(&self, name: &[u64; 15], point: Point) -> Option<&V>
        ensures { option_copied result ≡ stood (value_at point (past_of self.now name.now)) }
    {
        let place = *self.places.get(name)?;
        self.entries[place].past.at(point)?.as_ref()
    }

    /// The first point behind that one at which something was put under a name, or taken away; nothing, where
    /// nothing was. What stood there at the point stood until then.
    pub fn after(&self, name: &[u64; 15], point: Point) -> Option<Point>
        ensures next { IsNextPut (past_of self.now name.now) point result }
        ensures steady { IsSteady (λ at. value_at at (past_of self.now name.now)) point result }
    {
        let place = *self.places.get(name)?;
        self.entries[place].past.after(point)
    }

    /// From that point on, which is no earlier than that of any change under the name so far, this stands
    /// there. Where memory is refused, nothing changed.
    pub fn put(&mut self, name: [u64; 15], from: Point, value: Option<V>) -> Result<(), NoMemory>
        requires { UpTo from (past_of self.old name) }
        ensures put { OnOk result ((other : List ℕ)
            → past_of self.new other ≡ past_with name from value self.old other) }
        ensures kept { OnErr result (self.new ≡ self.old) }
    {
        if let Some(place) = self.places.get(&name) {
            let place = *place;
            self.entries[place].past.put(from, value)?;
            return Ok(());
        }
        self.places.reserve(1)?;
        let mut past = Past::new(self.alloc);
        past.put(from, value)?;
        let place = self.entries.len();
        self.entries.push(NamedPast { name, past })?;
        put_place(&mut self.places, name, place);
        Ok(())
    }
}
