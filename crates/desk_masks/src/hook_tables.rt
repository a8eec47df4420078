//! The tables of one hook.

use miniq_pair::{HeadPair, StoredTables};

/// The tables of one hook as they are stored, with the slots of their masks, and the place at which they
/// stand. What ties them to the store is `HasTables`.
#[derive(Drop)]
pub struct HookTables {
    pub pair: HeadPair,
    pub tables: StoredTables,
}
