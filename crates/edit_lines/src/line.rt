//! Where an accepted edit was read.

use tc_base::Point;

/// Where a line was read: the control that applied it, and the line of that control's batch, both from 1.
#[derive(Clone, Copy, Debug, PartialEq, Eq)]
pub struct LinePlace {
    pub control: u32,
    pub line: u64,
}

/// An accepted edit: its number among the accepted ones, from 1, the control that applied it, and the line of
/// that control's batch, from 1.
#[derive(Clone, Copy, Debug, PartialEq, Eq)]
pub struct Line {
    pub edit: Point,
    pub control: u32,
    pub line: u64,
}

/// A filter's handle, and the edit that brought the filter.
#[derive(Clone, Copy, Debug, PartialEq, Eq)]
pub struct Origin {
    pub handle: u32,
    pub by: Line,
}
