//! The last point of each mask and each action in one walk.

use crate::at_points::Thing;
use crate::last_points::LastPoints;
use std::alloc::Global;
use tc_base::{NoMemory, Point};

/// Room for the points of a walk's masks and actions, kept from walk to walk.
#[derive(Drop)]
pub struct LatestPoints {
    pub(crate) masks: LastPoints,
    pub(crate) actions: LastPoints,
}

impl LatestPoints {
    ghost use Rattle.std.specs.Prelude.{◌≡◌, true, nat_le, Ok, IfOk, if◌then◌else◌};
    ghost use Rattle.point_walks.specs.declared.at_points.Thing.{Thing as ThingValue};
    ghost use Rattle.point_walks.specs.Latest.{latest_of};
    ghost use Rattle.point_walks.specs.Visits.{is_same};

    /// No walk has begun. Nothing is taken yet.
    pub fn new(alloc: Global) -> LatestPoints {
        LatestPoints {
            masks: LastPoints::new(alloc),
            actions: LastPoints::new(alloc),
        }
    }

    /// A walk begins: it asked for nothing yet.
    pub fn begin(&mut self)
        ensures { (thing : ThingValue) → latest_of self.new thing ≡ 0 }
    {
        self.masks.begin();
        self.actions.begin();
    }

    /// The point at which the walk asked for the thing last, or 0.
    pub fn last(&self, thing: Thing) -> Point
        ensures { result ≡ latest_of self.now thing }
    {
        match thing {
            Thing::Tables => 0,
            Thing::Mask(serial) => self.masks.last(serial),
            Thing::Action(serial) => self.actions.last(serial),
        }
    }

    /// Whether that point is no lower than the thing's last one, whose place it then takes. The tables of a
    /// hook are asked for once.
    pub fn rise(&mut self, thing: Thing, point: Point) -> Result<bool, NoMemory>
        ensures rises { IfOk result (λ rises. rises ≡ nat_le (latest_of self.old thing) point) }
        ensures set { result ≡ Ok true → (other : ThingValue) → latest_of self.new other
            ≡ (if is_same thing other then point else latest_of self.old other) }
    {
        match thing {
            Thing::Tables => Ok(true),
            Thing::Mask(serial) => self.masks.rise(serial, point),
            Thing::Action(serial) => self.actions.rise(serial, point),
        }
    }
}
