//! A filter that was brought.

use edit_lines::Line;
use tc_base::{Hook, Point, Proto};

/// A filter that an edit put, by an add or a replace.
#[derive(Clone, Copy, Debug, PartialEq, Eq)]
pub struct Brought {
    /// The edit that put it.
    pub by: Line,
    pub hook: Hook,
    pub chain: u32,
    pub pref: u32,
    /// The protocol of its table.
    pub protocol: Proto,
    pub handle: u32,
    /// The number of the edit that took it away or replaced it, in its place or by another key.
    pub gone: Option<Point>,
}
