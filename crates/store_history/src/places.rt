//! Where the roots of a hook's store stand, and how many blocks its pools have: by these names alone code,
//! definitions and proofs speak of them. Slots, rows and buckets are numbered from 0.

/// The masks that have a place at a time.
pub const MASK_SLOTS: u32 = 8_192;

/// The actions that have a place at a time.
pub const ACTION_SLOTS: u32 = 2_048;

/// The rows.
pub const ROWS: u32 = 8_192;

/// The buckets of a row.
pub const ROW_BUCKETS: u32 = 16;

/// The buckets of all rows.
pub const BUCKETS: u32 = ROWS * ROW_BUCKETS;

/// The root of edits that no walk can see.
pub const MARKER_ROOT: u32 = 0;

/// The head root of the ingress hook. That of the egress hook is the next.
pub const HEAD_ROOTS: u32 = 1;

/// The root of mask slot 0. That of slot s is s further on.
pub const MASK_ROOTS: u32 = HEAD_ROOTS + 2;

/// The root of action slot 0. That of slot s is s further on.
pub const ACTION_ROOTS: u32 = MASK_ROOTS + MASK_SLOTS;

/// The root of the first bucket of all rows. That of bucket i of row r is 16 r + i further on.
pub const BUCKET_ROOTS: u32 = ACTION_ROOTS + ACTION_SLOTS;

/// All roots.
pub const ROOTS: u32 = BUCKET_ROOTS + BUCKETS;

/// The blocks of filters, masks and actions, which come first.
pub const POOL_BLOCKS: u32 = 16_384;
