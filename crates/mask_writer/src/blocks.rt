//! What a call may use.

use tc_base::Numbers;

/// Blocks and rows that were made free before: those that a call may give to filters, records and buckets.
#[derive(Drop, Debug)]
pub struct Blocks {
    pub blocks: Numbers,
    pub rows: Numbers,
}
