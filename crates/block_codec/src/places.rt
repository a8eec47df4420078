//! Where the blocks of a hook's tables stand, and how much a store has of what no root counts. Its roots and
//! pools are those of `store_history`.

use store_history::places::POOL_BLOCKS;
use visit_room::HEAD_TABLES;

/// The words of a block. The last one is the link.
pub const BLOCK_WORDS: u32 = 40;

/// The tables of a hook.
pub const TABLES: u32 = HEAD_TABLES as u32;

/// The readers of a hook's store.
pub const READERS: u32 = 8;

/// The block of table 0 of head place 0 of the ingress hook. That of table j of place p of hook h (ingress 0,
/// egress 1) is 256 (2 h + p) + j further on.
pub const HEAD_BLOCKS: u32 = POOL_BLOCKS;

/// All blocks.
pub const BLOCKS: u32 = HEAD_BLOCKS + 4 * TABLES;
