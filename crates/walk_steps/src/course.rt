//! How far a walk has come.

use crate::rooms::{ExecutionRoom, PointRoom};
use act_list::ListRun;
use flow_fields::Key;
use frame_edit::Frame;
use tc_base::Hook;
use visit_room::{HeadRoom, Hit};
use walk_rules::Verdict;

/// Where a walk stands: tables and masks by their places in what the head told, from 0.
#[derive(Clone, Copy)]
pub(crate) enum Stage {
    AtHead,
    AtMask { table: usize, mask: usize },
    AtAction { table: usize, run: ListRun },
    Over(Verdict),
}

/// All that a walk keeps.
#[derive(Drop)]
pub(crate) struct Course {
    pub(crate) hook: Hook,
    pub(crate) frame: Frame,
    /// The fields of the frame as it is.
    pub(crate) key: Key<14>,
    pub(crate) heads: HeadRoom,
    pub(crate) hit: Hit,
    pub(crate) restarts: u32,
    pub(crate) points: PointRoom,
    pub(crate) executed: ExecutionRoom,
    pub(crate) stage: Stage,
}
