//! The limits of a walk. The first is this project's own; the second is the kernel's (max_reclassify_loop of
//! net/sched/cls_api.c).

/// The visits of a walk at most. The packet of a walk that would need more is dropped.
pub const VISITS_MAX: usize = 65_536;

/// The restarts of a walk at most. The packet of a walk that would need more is dropped.
pub const RESTARTS_MAX: u32 = 16;
