use crate::Packets;
use tc_base::Bytes;

/// A captured frame and the moment at which it came, as contracts speak of it.
///
/// `fraction` counts microseconds or nanoseconds, as the capture says. `original` is the frame's
/// length on the wire, which may be more than was captured. A program meets a packet as a
/// `PacketView`, whose bytes are lent.
#[derive(Drop)]
pub struct Packet {
    pub seconds: u32,
    pub fraction: u32,
    pub original: u32,
    pub bytes: Bytes,
}

/// One packet with its bytes lent; the fields are those of `Packet`.
#[derive(Clone, Copy)]
pub struct PacketView<'a> {
    pub seconds: u32,
    pub fraction: u32,
    pub original: u32,
    pub bytes: &'a [u8],
}

/// A capture: whether its numbers stand with the highest byte first, whether its fractions are
/// nanoseconds rather than microseconds, and its packets in the order of the file.
#[derive(Drop)]
pub struct Capture {
    pub big: bool,
    pub nanos: bool,
    pub packets: Packets,
}
