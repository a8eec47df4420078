//! The last point of each serial in one walk.
ghost use Rattle.point_walks.specs.Lasts.{in_walk};
ghost use Rattle.std.specs.Prelude.{◌≡◌};

use std::alloc::Global;
use std::marker::Model;
use tc_base::{NoMemory, Point};

/// A point, and the number of the walk in which it was set.
#[derive(Clone, Copy)]
pub struct LastPoint {
    pub(crate) walk: u32,
    pub(crate) point: Point,
}

/// For each serial the point at which the walk that goes on asked for it last, or 0. Points of earlier walks
/// are told apart by the number of their walk, so that none has to be cleared.
#[derive(Drop)]
pub(crate) struct LastPoints {
    walk: u32,
    places: Vec<LastPoint>,
}

impl Model for LastPoints {
    ghost use Rattle.std.specs.Prelude.{List, ℕ, map, ◌≤◌};
    ghost use Rattle.std.specs.List.{All};
    ghost use Rattle.point_walks.specs.Lasts.{in_walk};

    ghost Value = { List ℕ };

    ghost view = { λ l. map (in_walk l.walk) l.places.items };

    ghost invariant = { λ l. All (λ place. place.walk ≤ l.walk) l.places.items };
}

impl LastPoints {
    ghost use Rattle.std.specs.Prelude.{◌≡◌, ◌<◌, ◌==◌, [], ℕ, true, nat_le, length, Ok, IfOk, OnOk};
    ghost use Rattle.std.specs.Prelude.{if◌then◌else◌};
    ghost use Rattle.point_walks.specs.Lasts.{last_of};

    /// No walk has begun.
    pub(crate) fn new(alloc: Global) -> LastPoints
        ensures { result ≡ [] }
    {
        LastPoints {
            walk: 0,
            places: Vec::new(alloc),
        }
    }

    /// A walk begins: it asked for nothing yet.
    pub(crate) fn begin(&mut self)
        ensures { (serial : ℕ) → last_of self.new serial ≡ 0 }
    {
        if self.walk == u32::MAX {
            self.places.clear();
            self.walk = 0;
        }
        self.walk += 1;
    }

    /// The serial's last point, or 0.
    pub(crate) fn last(&self, serial: u32) -> Point
        ensures { result ≡ last_of self.now serial }
    {
        match self.places.get(serial as usize) {
            Some(place) => point_in(*place, self.walk),
            None => 0,
        }
    }

    /// Whether that point is no lower than the serial's last one, whose place it then takes.
    pub(crate) fn rise(&mut self, serial: u32, point: Point) -> Result<bool, NoMemory>
        ensures rises { IfOk result (λ rises. rises ≡ nat_le (last_of self.old serial) point) }
        ensures set { result ≡ Ok true → (other : ℕ)
            → last_of self.new other ≡ (if other == serial then point else last_of self.old other) }
    {
        self.make_room(serial)?;
        let place = serial as usize;
        if point < point_in(self.places[place], self.walk) {
            return Ok(false);
        }
        self.places[place] = LastPoint {
            walk: self.walk,
            point,
        };
        Ok(true)
    }

    // A place for the serial.
    fn make_room(&mut self, serial: u32) -> Result<(), NoMemory>
        ensures room { OnOk result (serial < length self.new) }
        ensures same { OnOk result ((other : ℕ) → last_of self.new other ≡ last_of self.old other) }
    {
        let places = serial as usize + 1;
        if self.places.len() < places {
            let never = LastPoint { walk: 0, point: 0 };
            self.places.resize(places, never)?;
        }
        Ok(())
    }
}

// The point, where it was set in that walk.
fn point_in(last: LastPoint, walk: u32) -> Point
    ensures { result ≡ in_walk walk last }
{
    if last.walk == walk { last.point } else { 0 }
}
