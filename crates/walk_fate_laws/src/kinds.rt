//! What the fates of a packet say of a change.

/// When a fate is had: by a packet that meets the state before the change alone, the one after it, each of
/// the two, or some one state strictly between them. Where it is mixed, no packet that meets one state has
/// it, but one that is on its way while several edits come can.
#[derive(Clone, Copy, Debug, PartialEq, Eq)]
pub enum When {
    Before,
    After,
    Both,
    Between,
    Mixed,
}

/// The kind of a packet. Steady: one fate. Moved: those of the states before and after, and no other.
/// Between: one is neither, and had in a state between. Mixed: one is neither, and none of these is had in a
/// state between. Open: none that was found is neither, but not all ways were looked at.
#[derive(Clone, Copy, Debug, PartialEq, Eq)]
pub enum Kind {
    Steady,
    Moved,
    Between,
    Mixed,
    Open,
}
