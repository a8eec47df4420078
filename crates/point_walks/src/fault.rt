//! Why no walk has given points.

use crate::at_points::Thing;

/// Why points aren't those of a lawful walk.
#[derive(Clone, Copy)]
pub enum PointFault {
    /// The first point is below the floor.
    Floor,
    /// A point is below the first.
    Early,
    /// A point is above the ceiling.
    Late,
    /// What the walk asks for has no answer at its point.
    Gone(Thing),
    /// The points of one mask or one action fall.
    Falling,
    /// The walk is over before the last point.
    TooMany,
    /// The walk isn't over behind the last point, or there is none.
    TooFew,
}
