//! How many actions there may be.

/// How many actions may be live at once (this project's own).
pub const ACTIONS_MAX: usize = 1_024;

/// How many actions may be made in a run (this project's own).
pub const MADE_MAX: u32 = 16_384;
