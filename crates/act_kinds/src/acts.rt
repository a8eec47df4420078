//! What actions do to frames.
ghost use Rattle.std.specs.Prelude.{◌≡◌, ◌<◌};
ghost use Rattle.frame_edit.specs.Tags.{control_of};
ghost use Rattle.act_kinds.specs.Acts.{with_marks, retagged_by, acted_on, control_by, control_given, FitsTag};
ghost use Rattle.act_kinds.specs.Acts.{FitsFrames};

use crate::params::{Control, Params, VlanOp};
use frame_edit::{Frame, Meta};

// The control information of a tag that is not drop eligible (IEEE 802.1Q, clause 9.6).
fn tag_control(id: u16, priority: u8) -> u16
    requires id { id < 4096 }
    requires priority { priority < 8 }
    ensures { result ≡ control_of priority 0 id }
{
    u16::from(priority) * 8192 + id
}

fn with_marks(meta: Meta, priority: Option<u32>, mark: Option<u32>, queue: Option<u16>) -> Meta
    ensures { result ≡ with_marks priority mark queue meta }
{
    Meta {
        priority: priority.unwrap_or(meta.priority),
        mark: mark.unwrap_or(meta.mark),
        queue: queue.unwrap_or(meta.queue),
    }
}

// Changes the outermost tag, and answers the control: for want of room a push gives `drop`.
fn retag(op: VlanOp, control: Control, frame: &mut Frame) -> Control
    requires { FitsTag op }
    ensures frame { frame.new ≡ retagged_by op frame.old }
    ensures control { result ≡ control_by op control frame.old }
{
    match op {
        VlanOp::Push { tpid, id, priority } => {
            match frame.push(tpid, tag_control(id, priority)) {
                Ok(()) => control,
                Err(_) => Control::Shot,
            }
        }
        VlanOp::Pop => {
            frame.pop();
            control
        }
        VlanOp::Modify { tpid, id, priority } => {
            frame.modify(id, priority, tpid);
            control
        }
    }
}

/// Does to a frame what an action does (tc-actions(8), tc-vlan(8), tc-skbedit(8)), and answers the control
/// that it gives.
///
/// Asks that a VLAN id is below 4,096 and a VLAN priority below 8. A push that finds no room changes nothing
/// and gives `drop`; one on a frame below 14 bytes, and a pop or a modify on an untagged one, change nothing
/// and give the action's control.
pub fn act(params: &Params, frame: &mut Frame) -> Control
    requires { FitsFrames params.now }
    ensures frame { frame.new ≡ acted_on params.now frame.old }
    ensures control { result ≡ control_given params.now frame.old }
{
    match *params {
        Params::Gact(control) => control,
        Params::Vlan(op, control) => retag(op, control, frame),
        Params::Skbedit {
            priority,
            mark,
            queue,
            control,
        } => {
            let meta = with_marks(frame.meta(), priority, mark, queue);
            frame.set_meta(meta);
            control
        }
    }
}
