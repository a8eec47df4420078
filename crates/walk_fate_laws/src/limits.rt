//! The limit of a search (this project's own).

/// The ways of a packet that are looked at, at most.
pub const WAYS_MAX: usize = 4096;
