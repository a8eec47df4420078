//! How much a state may have. All of these are this project's own.

/// The tables of a hook at most: its different chains and prefs.
pub const TABLES_MAX: usize = 256;

/// The masks of a table at most.
pub const MASKS_MAX: usize = 16;

/// The filters of both hooks together at most.
pub const FILTERS_MAX: u32 = 4_096;

/// The actions of one filter at most.
pub const LINE_ACTIONS_MAX: usize = 16;
