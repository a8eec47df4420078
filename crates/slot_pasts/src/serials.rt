//! The pasts of things that have a serial.

use crate::past::Past;
use std::alloc::Global;
use std::marker::Model;
use tc_base::{NoMemory, Point};

/// What stood under each serial over time, or that it was gone. Memory is taken for each serial up to the
/// greatest that was put.
#[derive(Drop)]
pub struct SerialPasts<V> {
    alloc: Global,
    pasts: Vec<Past<Option<V>>>,
}

impl<V> Model for SerialPasts<V> {
    ghost use Rattle.std.specs.Prelude.{List, Option};
    ghost use Rattle.slot_pasts.specs.declared.past.Change.{Change};

    ghost Value = { List (List (Change (Option V))) };

    ghost view = { λ p. p.pasts.items };
}

impl<V: Drop> SerialPasts<V> {
    ghost use Rattle.std.specs.Prelude.{◌≡◌, ◌<◌, ◌==◌, ◌++◌, ◌∷◌, [], ℕ, length, OnOk, if◌then◌else◌};
    ghost use Rattle.std.specs.Option.{option_copied};
    ghost use Rattle.slot_pasts.specs.Pasts.{value_at, UpTo, stood};
    ghost use Rattle.slot_pasts.specs.Serials.{past_at};
    ghost use Rattle.slot_pasts.specs.Next.{IsNextPut, IsSteady};

    /// Nothing stood anywhere.
    pub fn new(alloc: Global) -> SerialPasts<V>
        ensures { result ≡ [] }
    {
        SerialPasts {
            alloc,
            pasts: Vec::new(alloc),
        }
    }

    /// What stood under a serial at a point.
    pub fn at(&self, serial: u32, point: Point) -> Option<&V>
        ensures { option_copied result ≡ stood (value_at point (past_at self.now serial)) }
    {
        let place = serial as usize;
        if place >= self.pasts.len() {
            return None;
        }
        self.pasts[place].at(point)?.as_ref()
    }

    /// The first point behind that one at which something was put under a serial, or taken away; nothing,
    /// where nothing was. What stood there at the point stood until then.
    pub fn after(&self, serial: u32, point: Point) -> Option<Point>
        ensures next { IsNextPut (past_at self.now serial) point result }
        ensures steady { IsSteady (λ at. value_at at (past_at self.now serial)) point result }
    {
        let place = serial as usize;
        if place >= self.pasts.len() {
            return None;
        }
        self.pasts[place].after(point)
    }

    /// From that point on, which is no earlier than that of any change under the serial so far, this stands
    /// there. Where memory is refused, nothing is promised of any serial.
    pub fn put(&mut self, serial: u32, from: Point, value: Option<V>) -> Result<(), NoMemory>
        requires { UpTo from (past_at self.old serial) }
        ensures { OnOk result ((other : ℕ) → past_at self.new other ≡ (if other == serial
            then past_at self.old serial ++ (record { from = from; value = value } ∷ [])
            else past_at self.old other)) }
    {
        self.make_room(serial)?;
        self.pasts[serial as usize].put(from, value)?;
        Ok(())
    }

    // A past for the serial.
    fn make_room(&mut self, serial: u32) -> Result<(), NoMemory>
        ensures room { OnOk result (serial < length self.new) }
        ensures same { OnOk result ((other : ℕ) → past_at self.new other ≡ past_at self.old other) }
    {
        while self.pasts.len() <= serial as usize {
            self.pasts.push(Past::new(self.alloc))?;
        }
        Ok(())
    }
}
