//! The ways in which edits of filters are done.

use tc_base::Hook;

/// How an edit of filters is going to be done, with the slots of the masks that it finds and with how many
/// filters they have before it.
#[derive(Clone, Copy, Debug)]
pub enum Way {
    /// A filter comes into the mask at the slot.
    IntoMask {
        slot: u32,
        count: u32,
    },
    /// A filter comes with a mask of its own.
    WithMask {
        hook: Hook,
    },
    /// A filter takes the place of the one with its mask and key, in the mask at the slot. Its bucket has so
    /// many later ones.
    InPlace {
        slot: u32,
        later: u32,
    },
    /// A filter gets another key, in the mask at the slot, which is laid anew.
    OtherKey {
        hook: Hook,
        slot: u32,
        count: u32,
    },
    /// A filter leaves the mask at the slot for another, which stands and has so many others, or is made.
    OtherMask {
        hook: Hook,
        slot: u32,
        count: u32,
        into: Option<u32>,
        others: u32,
    },
    /// A filter leaves the mask at the slot, which has others. Its bucket has so many later ones.
    OutOfMask {
        slot: u32,
        count: u32,
        later: u32,
    },
    /// A mask goes with its last filter, or all masks of a table go.
    Closes {
        hook: Hook,
    },
}
