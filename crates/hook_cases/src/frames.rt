//! A frame.

/// From 10.0.0.254 to 10.0.0.1, by UDP to port 53.
pub(crate) const FRAME: [u8; 42] = [
    2, 0, 0, 0, 0, 1, 2, 0, 0, 0, 0, 2, 8, 0, 0x45, 0, 0, 28, 0, 0, 0, 0, 64, 17, 0, 0, 10, 0, 0,
    254, 10, 0, 0, 1, 0x13, 0x88, 0, 53, 0, 8, 0, 0,
];

/// The same to another host of 10.0.0.0/24.
pub(crate) fn frame_to(host: u8) -> [u8; 42] {
    let mut bytes = FRAME;
    bytes[33] = host;
    bytes
}
