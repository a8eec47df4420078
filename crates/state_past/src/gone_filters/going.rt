//! A filter that may go.

use flow_fields::Key;
use tc_base::{Hook, Numbers};

/// Where a filter stands that may go with an edit, and what it names.
#[derive(Drop)]
pub struct GoingFilter {
    pub hook: Hook,
    pub chain: u32,
    pub pref: u32,
    /// The serial of its mask.
    pub mask: u32,
    /// The words of its mask.
    pub words: Key<14>,
    pub key: Key<14>,
    /// The serials of its actions, in order.
    pub actions: Numbers,
}
