//! Room for a mask that is laid anew.

use crate::desk_edits::Room;
use block_codec::StoredFilter;

/// Room for what a mask takes that is laid anew: numbers, and its filters. Empty, made before an edit begins.
#[derive(Drop)]
pub struct MaskRoom {
    pub numbers: Room,
    pub filters: Vec<StoredFilter>,
}
