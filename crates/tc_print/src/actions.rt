//! Actions.
ghost use Rattle.std.specs.Prelude.{◌≡◌, [], ◌∷◌, ◌++◌, Some, fold, codes, decimal, OnOk};
ghost use Rattle.line_texts.specs.Texts.{ether_type_text};
ghost use Rattle.tc_print.specs.ActionWords.{number_words, index_words, tag_words, op_words, class_words};
ghost use Rattle.tc_print.specs.ActionWords.{mark_words, params_words, given_words, action_words, list_words};
ghost use Rattle.tc_print.specs.Texts.{onto};

use crate::controls::{push_control, push_index};
use crate::texts::{push_class_word, push_ether_type_word, push_named, push_word};
use act_kinds::{Kind, Params, VlanOp};
use filter_state::ActionLine;
use std::alloc::AllocError;
use tc_batch::kind_name;

fn push_tag(out: &mut Vec<u8>, tpid: u16, id: u16) -> Result<(), AllocError>
    ensures { OnOk result (out.new.items ≡ fold onto out.old.items (tag_words tpid id)) }
{
    push_word(out, "protocol")?;
    push_ether_type_word(out, tpid)?;
    push_named(out, "id", u64::from(id))
}

fn push_tag_priority(out: &mut Vec<u8>, priority: Option<u8>) -> Result<(), AllocError>
    ensures { OnOk result (out.new.items
        ≡ fold onto out.old.items (number_words (codes "priority") priority)) }
{
    match priority {
        Some(priority) => push_named(out, "priority", u64::from(priority)),
        None => Ok(()),
    }
}

#[tactic(auto, using(crate::proofs::Grown::onto_append))]
fn push_tagged(
    out: &mut Vec<u8>,
    verb: &str,
    tpid: u16,
    id: u16,
    priority: Option<u8>,
) -> Result<(), AllocError>
    ensures { OnOk result (out.new.items
        ≡ fold onto out.old.items
        (verb.now ∷ (tag_words tpid id ++ number_words (codes "priority") priority))) }
{
    push_word(out, verb)?;
    push_tag(out, tpid, id)?;
    push_tag_priority(out, priority)
}

fn push_op(out: &mut Vec<u8>, op: VlanOp) -> Result<(), AllocError>
    ensures { OnOk result (out.new.items ≡ fold onto out.old.items (op_words op)) }
{
    match op {
        VlanOp::Push { tpid, id, priority } => push_tagged(out, "push", tpid, id, Some(priority)),
        VlanOp::Pop => push_word(out, "pop"),
        VlanOp::Modify { tpid, id, priority } => push_tagged(out, "modify", tpid, id, priority),
    }
}

fn push_queue(out: &mut Vec<u8>, queue: Option<u16>) -> Result<(), AllocError>
    ensures { OnOk result (out.new.items
        ≡ fold onto out.old.items (number_words (codes "queue_mapping") queue)) }
{
    match queue {
        Some(queue) => push_named(out, "queue_mapping", u64::from(queue)),
        None => Ok(()),
    }
}

fn push_one_priority(out: &mut Vec<u8>, class: u32) -> Result<(), AllocError>
    ensures { OnOk result (out.new.items ≡ fold onto out.old.items (class_words (Some class))) }
{
    push_word(out, "priority")?;
    push_class_word(out, class)
}

fn push_priority(out: &mut Vec<u8>, priority: Option<u32>) -> Result<(), AllocError>
    ensures { OnOk result (out.new.items ≡ fold onto out.old.items (class_words priority)) }
{
    match priority {
        Some(class) => push_one_priority(out, class),
        None => Ok(()),
    }
}

fn push_mark(out: &mut Vec<u8>, mark: Option<u32>) -> Result<(), AllocError>
    ensures { OnOk result (out.new.items ≡ fold onto out.old.items (number_words (codes "mark") mark)) }
{
    match mark {
        Some(mark) => push_named(out, "mark", u64::from(mark)),
        None => Ok(()),
    }
}

#[tactic(auto, using(crate::proofs::Grown::onto_append))]
fn push_marks(
    out: &mut Vec<u8>,
    priority: Option<u32>,
    mark: Option<u32>,
    queue: Option<u16>,
) -> Result<(), AllocError>
    ensures { OnOk result (out.new.items ≡ fold onto out.old.items (mark_words priority mark queue)) }
{
    push_queue(out, queue)?;
    push_priority(out, priority)?;
    push_mark(out, mark)
}

/// Puts what an action does behind a line: its kind, its operation or its marks (tc-vlan(8), tc-skbedit(8)),
/// and its control, each with a space before it unless the line is empty.
///
/// `AllocError`: memory was refused.
#[tactic(auto, using(crate::proofs::Grown::onto_append))]
pub fn push_params(out: &mut Vec<u8>, given: Params) -> Result<(), AllocError>
    ensures { OnOk result (out.new.items ≡ fold onto out.old.items (params_words given)) }
{
    push_word(out, kind_name(given.kind()))?;
    match given {
        Params::Gact(control) => push_control(out, control),
        Params::Vlan(op, control) => {
            push_op(out, op)?;
            push_control(out, control)
        }
        Params::Skbedit {
            priority,
            mark,
            queue,
            control,
        } => {
            push_marks(out, priority, mark, queue)?;
            push_control(out, control)
        }
    }
}

fn push_given(out: &mut Vec<u8>, kind: Kind, given: Option<Params>) -> Result<(), AllocError>
    ensures { OnOk result (out.new.items ≡ fold onto out.old.items (given_words kind given)) }
{
    match given {
        Some(given) => push_params(out, given),
        None => push_word(out, kind_name(kind)),
    }
}

/// Puts the words of an action behind a line, from the word `action` on, each with a space before it unless
/// the line is empty.
///
/// An action that is only named is `action KIND index N` (tc-actions(8)). In full it is its kind, what it
/// does (tc-vlan(8), tc-skbedit(8)), its control, and `index N` if it has an index.
#[tactic(auto, using(crate::proofs::Grown::onto_append))]
pub fn push_action(out: &mut Vec<u8>, action: ActionLine) -> Result<(), AllocError>
    ensures { OnOk result (out.new.items ≡ fold onto out.old.items (action_words action)) }
{
    push_word(out, "action")?;
    push_given(out, action.kind, action.params)?;
    push_index(out, action.index)
}

/// Puts actions behind a line, in order.
pub(crate) fn push_actions(out: &mut Vec<u8>, actions: &[ActionLine]) -> Result<(), AllocError>
    ensures { OnOk result (out.new.items ≡ fold onto out.old.items (list_words actions.now)) }
{
    for action in actions {
        push_action(out, *action)?;
    }
    Ok(())
}
