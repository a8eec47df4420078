//! How much the generator makes.

/// The filters of a generated batch at most (this project's own).
pub const GEN_MAX: u32 = 4_096;
