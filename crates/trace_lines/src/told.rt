//! What stays the same in all lines of a packet.

/// The packet's number, and whether the point of each visit is told.
#[derive(Clone, Copy, Debug)]
pub struct Told {
    pub packet: u64,
    pub points: bool,
}
