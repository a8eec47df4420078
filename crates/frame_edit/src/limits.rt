//! How long a frame may be.

/// The bytes of a frame at most, as loaded and after each edit (this project's own; the same as the snap
/// length of tcpdump(1)).
pub const FRAME_MAX: usize = 262_144;
