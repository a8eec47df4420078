//! How many packets are walked.

/// The packets of one run at most, those of all its captures together (this project's own).
pub const PACKETS_MAX: usize = 1_048_576;
