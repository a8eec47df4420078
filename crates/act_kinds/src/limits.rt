//! How far an action may lead.

/// The greatest chain, and the greatest place to jump to (TC_ACT_EXT_VAL_MASK of the kernel's
/// include/uapi/linux/pkt_cls.h).
pub const CHAIN_MAX: u32 = 268_435_455;
