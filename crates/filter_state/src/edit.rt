//! Edits.

use crate::ActionLines;
use crate::action_line::ActionLine;
use act_kinds::Kind;
use flow_fields::Key;
use tc_base::{Hook, Proto};

/// A filter as a line gives it.
#[derive(Drop, Debug)]
pub struct FilterLine {
    pub hook: Hook,
    pub protocol: Proto,
    pub chain: u32,
    /// `None` where the filter gets the next pref that is free.
    pub pref: Option<u32>,
    /// `None` where the filter gets the lowest handle that is free.
    pub handle: Option<u32>,
    pub mask: Key<14>,
    /// The values of the fields, under the mask.
    pub key: Key<14>,
    pub actions: ActionLines,
}

/// What a batch line asks for.
#[derive(Drop, Debug)]
pub enum Edit {
    /// Puts the clsact qdisc on the device (tc-clsact(8)).
    HookAdd,
    HookDel,
    FilterAdd(FilterLine),
    FilterReplace(FilterLine),
    /// Removes the filter with that handle, or without a handle the whole table.
    FilterDel {
        hook: Hook,
        /// `None` where the table may have any protocol.
        protocol: Option<Proto>,
        chain: u32,
        pref: u32,
        handle: Option<u32>,
    },
    ActionAdd(ActionLine),
    ActionChange(ActionLine),
    ActionDel {
        kind: Kind,
        index: u32,
    },
}
