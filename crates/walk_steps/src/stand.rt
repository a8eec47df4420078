//! Where a walk stands, as it is told to others.

use tc_base::Proto;
use walk_rules::Verdict;

/// Where a walk stands: before the tables of the hook, before a look-up in a mask of a table, before an
/// action of a list, or at its end.
#[derive(Clone, Copy, Debug, PartialEq, Eq)]
pub enum Stand {
    AtHead,
    /// The table's chain, pref and protocol, and whether the mask is the first of the table's.
    AtMask {
        chain: u32,
        pref: u32,
        protocol: Proto,
        is_first: bool,
    },
    /// The action's position in its list, from 0, and the length of the list.
    AtAction {
        position: u32,
        length: u32,
    },
    Over(Verdict),
}
