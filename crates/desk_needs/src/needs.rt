//! What an edit needs.

use tc_base::Hook;

/// How many of each pool an edit needs, and the hook whose tables change with it, or their masks.
#[derive(Clone, Copy, Debug, PartialEq, Eq)]
pub struct Needs {
    pub blocks: u32,
    pub rows: u32,
    pub masks: u32,
    pub actions: u32,
    pub head: Option<Hook>,
}
