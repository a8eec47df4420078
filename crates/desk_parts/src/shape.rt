//! The shape of a hook's store.

use block_codec::places::{BLOCK_WORDS, BLOCKS, READERS};
use pin_store::Shape;
use store_history::places::ROOTS;

/// The shape of each hook's store.
pub const HOOK_SHAPE: Shape = Shape {
    blocks: BLOCKS,
    words: BLOCK_WORDS,
    roots: ROOTS,
    readers: READERS,
};
