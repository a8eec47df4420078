// The bytes of a header.
pub const HEADER: usize = 24;

// The bytes before those of a packet: seconds, fraction, captured length and original length.
pub const RECORD: usize = 16;

// The bytes of a buffer of packets at most, so that a place in it has 32 bits.
pub const CONTENT_MAX: usize = 4_294_967_295;

/// The bytes of one packet at most (this project's own).
pub const PACKET_MAX: u32 = 262_144;

/// The snap length that is written (pcap-savefile(5)): no packet is longer.
pub const SNAP_LENGTH: u32 = PACKET_MAX;
