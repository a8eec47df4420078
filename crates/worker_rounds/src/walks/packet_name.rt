//! Which packet a worker walks.

/// A packet of a run as a gate knows it.
#[derive(Clone, Copy, Debug, PartialEq, Eq)]
pub struct PacketName {
    /// The worker that walks it, counted from 1.
    pub worker: u32,
    /// Its place in the capture of the round, counted from 1.
    pub packet: u32,
}
