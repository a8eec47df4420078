//! The names of masks and actions.

/// A mask: its serial in the state, and the slot at which whoever answers keeps it.
#[derive(Clone, Copy, Debug, Default, PartialEq, Eq)]
pub struct MaskName {
    pub serial: u32,
    pub slot: u32,
}

/// An action: its serial in the state, and the slot at which whoever answers keeps it.
#[derive(Clone, Copy, Debug, Default, PartialEq, Eq)]
pub struct ActionName {
    pub serial: u32,
    pub slot: u32,
}
