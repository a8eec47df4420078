//! The least points at which a walk may ask.

use point_walks::{LatestPoints, Thing};
use std::alloc::Global;
use tc_base::{NoMemory, Point};

/// The point of the tables, or that before the change, and the last points of masks and actions.
#[derive(Drop)]
pub(crate) struct LeastPoints {
    pub(crate) floor: Point,
    pub(crate) latest: LatestPoints,
}

impl LeastPoints {
    ghost use Rattle.std.specs.Prelude.{◌≡◌, ◌≤◌, max, OnOk, if◌then◌else◌};
    ghost use Rattle.point_walks.specs.declared.at_points.Thing.{Thing as ThingValue};
    ghost use Rattle.fate_search.specs.LeastPoints.{least_of, binds};

    /// No walk has begun. Nothing is taken yet.
    pub(crate) fn new(alloc: Global) -> LeastPoints {
        LeastPoints {
            floor: 0,
            latest: LatestPoints::new(alloc),
        }
    }

    /// A walk begins: it may ask for all from that point on.
    pub(crate) fn begin(&mut self, before: Point)
        ensures { (thing : ThingValue) → least_of self.new thing ≡ before }
    {
        self.floor = before;
        self.latest.begin();
    }

    /// The least point at which the walk may ask for a thing.
    pub(crate) fn least(&self, thing: Thing) -> Point
        ensures { result ≡ least_of self.now thing }
    {
        self.floor.max(self.latest.last(thing))
    }

    /// The walk has asked for a thing at a point: what that binds isn't asked for at a lower one.
    pub(crate) fn raise(&mut self, thing: Thing, point: Point) -> Result<(), NoMemory>
        requires { least_of self.old thing ≤ point }
        ensures { OnOk result ((other : ThingValue) → least_of self.new other
            ≡ (if binds thing other then max point (least_of self.old other) else least_of self.old other)) }
    {
        match thing {
            Thing::Tables => self.floor = self.floor.max(point),
            Thing::Mask(_) | Thing::Action(_) => {
                self.latest.rise(thing, point)?;
            }
        }
        Ok(())
    }
}
