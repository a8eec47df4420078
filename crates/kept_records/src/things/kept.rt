//! One thing that is kept.

use tc_base::Point;

/// A thing, the number that it has, and the stamp with which it was read.
#[derive(Drop)]
pub struct Kept<T> {
    pub number: u32,
    pub stamp: Point,
    pub thing: T,
}
