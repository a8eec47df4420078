//! A table with its masks.

use crate::mask_lists::MaskLists;
use tc_base::Proto;

/// The filters of one chain and pref of a hook (`struct tcf_proto` of the kernel, include/net/sch_generic.h).
#[derive(Drop)]
pub struct FilterTable {
    /// Counted from 1 over a run, and never given twice.
    pub serial: u32,
    pub chain: u32,
    pub pref: u32,
    /// The protocol of all its filters.
    pub protocol: Proto,
    pub masks: MaskLists,
}
