//! The things that are kept.

use crate::things::kept::Kept;
use std::alloc::Global;
use std::marker::Model;
use tc_base::{NoMemory, Point};

/// How many places there are.
const PLACES: u32 = 256;

/// At each place the thing that was put there last, or none.
#[derive(Drop)]
pub struct KeptThings<T> {
    places: Vec<Option<Kept<T>>>,
}

impl<T> Model for KeptThings<T> {
    ghost use Rattle.std.specs.Prelude.{List, Option};
    ghost use Rattle.kept_records.specs.declared.things.kept.Kept.{Kept as KeptThing};

    ghost Value = { List (Option (KeptThing T)) };

    ghost use Rattle.std.specs.Prelude.{◌≡◌, length};

    ghost view = { λ k. k.places.items };

    ghost invariant = { λ k. length k.places.items ≡ 256 };
}

impl<T: Drop> KeptThings<T> {
    ghost use Rattle.std.specs.Prelude.{◌≡◌, None, IfOk, option_copied, replicate, slice_set};
    ghost use Rattle.kept_records.specs.OfThings.Places.{place_of, kept_at, kept_as};

    /// Takes the room, and keeps nothing. No other call takes memory.
    pub fn with_room(alloc: Global) -> Result<KeptThings<T>, NoMemory>
        ensures { IfOk result (λ things. things ≡ replicate 256 None) }
    {
        let mut places = Vec::with_capacity(alloc, PLACES as usize)?;
        for _ in 0..PLACES {
            places.push(None)?;
        }
        Ok(KeptThings { places })
    }

    /// The thing of that number, where one is kept with that stamp.
    pub fn at(&self, number: u32, stamp: Point) -> Option<&T>
        ensures { option_copied result ≡ kept_at self.now number stamp }
    {
        match &self.places[(number % PLACES) as usize] {
            Some(kept) if kept.number == number && kept.stamp == stamp => Some(&kept.thing),
            _ => None,
        }
    }

    /// Keeps the thing of a number at its place, or none. What was there is lost.
    pub fn keep(&mut self, number: u32, stamp: Point, thing: Option<T>)
        ensures places { self.new ≡ slice_set self.old (place_of number) (kept_as number stamp thing) }
        ensures there { kept_at self.new number stamp ≡ thing }
    {
        self.places[(number % PLACES) as usize] = match thing {
            Some(thing) => Some(Kept {
                number,
                stamp,
                thing,
            }),
            None => None,
        };
    }
}
