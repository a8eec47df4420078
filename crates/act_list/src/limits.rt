//! How long a list of actions may be, and how far it is followed.

/// The actions of a list at most: as many as a line may give a filter.
pub const LIST_MAX: usize = 16;

/// The jumps that a run of a list follows at most: one fewer than TCA_ACT_MAX_PRIO of the kernel's
/// include/uapi/linux/pkt_cls.h. The next one accepts.
pub const JUMPS_MAX: u32 = 31;
