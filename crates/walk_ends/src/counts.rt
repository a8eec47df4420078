//! How often an action ran.

/// How often an action ran, and the lengths of the frames on which it ran, together in bytes.
#[derive(Clone, Copy, Debug, PartialEq, Eq)]
pub struct Count {
    pub packets: u64,
    pub bytes: u64,
}
