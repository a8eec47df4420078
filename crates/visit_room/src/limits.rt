//! How much the rooms have places for: as much as the limits of a hook and of a filter allow.

/// The tables of a hook that a room has places for.
pub const HEAD_TABLES: usize = 256;

/// The masks of each of these tables.
pub const HEAD_MASKS: usize = 16;

/// The actions of a filter that was found.
pub const HIT_ACTIONS: usize = 16;
