//! Looking at an edit, with nothing done yet.
ghost use Rattle.std.specs.Prelude.{◌≡◌, Some};
ghost use Rattle.filter_state.specs.declared.edit.Edit.TheVariants as edits;
ghost use Rattle.filter_state.specs.States.{Row};
ghost use Rattle.filter_state.specs.Lines.{IsLine, IsFilter};
ghost use Rattle.filter_state.specs.Steps.{step, filter_add, filter_replace, filter_del, replace_at};
ghost use Rattle.filter_lists.specs.OfReplacing.Replacements.{old_row, IsFound};
ghost use Rattle.hook_lists.specs.States.{state_of, AreKept};
ghost use Rattle.hook_lists.specs.Steps.{IsRoomier};
ghost use Rattle.filter_lists.specs.Edits.{MayStep};
ghost use Rattle.filter_lists.specs.Plans.{IsPlanned};

use crate::adding::prepare_addition;
use crate::plan::Plan;
use crate::removing::plan_removal;
use crate::replacing::{Old, find_old, prepare_replacement};
use crate::shared::{plan_action_add, plan_action_change, plan_action_del};
use filter_state::{Edit, FilterLine, Refusal};
use hook_lists::Kept;
use tc_base::{Hook, Proto};

/// What is to be done for the edit, or why it is refused.
pub(crate) fn plan_for(kept: &mut Kept, edit: &Edit) -> Result<Plan, Refusal>
    requires kept { AreKept kept.old }
    requires line { IsLine edit.now }
    requires room { MayStep kept.old }
    ensures roomier { IsRoomier kept.old kept.new }
    ensures planned { IsPlanned kept.new result (step (state_of kept.old) edit.now) }
{
    match edit {
        Edit::HookAdd => plan_hook_add(kept),
        Edit::HookDel => plan_hook_del(kept),
        Edit::FilterAdd(line) => plan_add(kept, line),
        Edit::FilterReplace(line) => plan_replace(kept, line),
        Edit::FilterDel {
            hook,
            protocol,
            chain,
            pref,
            handle,
        } => plan_del(kept, *hook, *protocol, *chain, *pref, *handle),
        Edit::ActionAdd(action) => plan_action_add(kept, action),
        Edit::ActionChange(action) => plan_action_change(kept, action),
        Edit::ActionDel { kind, index } => plan_action_del(kept, *kind, *index),
    }
}

// `HookExists`: the qdisc is there.
fn plan_hook_add(kept: &Kept) -> Result<Plan, Refusal>
    ensures { IsPlanned kept.now result (step (state_of kept.now) edits.HookAdd) }
{
    if kept.hooked {
        return Err(Refusal::HookExists);
    }
    Ok(Plan::HookAdd)
}

// `NoHook`: it isn't there. `HookInUse`: a filter is on either hook.
fn plan_hook_del(kept: &Kept) -> Result<Plan, Refusal>
    requires { AreKept kept.now }
    ensures { IsPlanned kept.now result (step (state_of kept.now) edits.HookDel) }
{
    if !kept.hooked {
        return Err(Refusal::NoHook);
    }
    if kept.filters > 0 {
        return Err(Refusal::HookInUse);
    }
    Ok(Plan::HookDel)
}

fn plan_add(kept: &mut Kept, line: &FilterLine) -> Result<Plan, Refusal>
    requires kept { AreKept kept.old }
    requires line { IsFilter line.now }
    requires room { MayStep kept.old }
    ensures roomier { IsRoomier kept.old kept.new }
    ensures planned { IsPlanned kept.new result (filter_add (state_of kept.old) line.now) }
{
    match prepare_addition(kept, line) {
        Ok(addition) => Ok(Plan::Add(addition)),
        Err(refusal) => Err(refusal),
    }
}

// A replace of a filter that isn't there is an add.
fn plan_replace(kept: &mut Kept, line: &FilterLine) -> Result<Plan, Refusal>
    requires kept { AreKept kept.old }
    requires line { IsFilter line.now }
    requires room { MayStep kept.old }
    ensures roomier { IsRoomier kept.old kept.new }
    ensures planned { IsPlanned kept.new result (filter_replace (state_of kept.old) line.now) }
{
    match find_old(kept, line) {
        Some(old) => plan_replacement(kept, line, old),
        None => plan_add(kept, line),
    }
}

fn plan_replacement(kept: &mut Kept, line: &FilterLine, old: Old) -> Result<Plan, Refusal>
    requires kept { AreKept kept.old }
    requires line { IsFilter line.now }
    requires room { MayStep kept.old }
    requires found { IsFound kept.old line.now (Some old) }
    ensures roomier { IsRoomier kept.old kept.new }
    ensures planned { (row : Row) → old_row (state_of kept.old) line.now ≡ Some row
        → IsPlanned kept.new result (replace_at (state_of kept.old) line.now row) }
{
    match prepare_replacement(kept, line, old) {
        Ok(replacement) => Ok(Plan::Replace(replacement)),
        Err(refusal) => Err(refusal),
    }
}

fn plan_del(
    kept: &Kept,
    hook: Hook,
    protocol: Option<Proto>,
    chain: u32,
    pref: u32,
    handle: Option<u32>,
) -> Result<Plan, Refusal>
    requires { AreKept kept.now }
    ensures { IsPlanned kept.now result (filter_del (state_of kept.now) hook protocol chain pref handle) }
{
    match plan_removal(kept, hook, protocol, chain, pref, handle) {
        Ok(removal) => Ok(Plan::Remove(removal)),
        Err(refusal) => Err(refusal),
    }
}
