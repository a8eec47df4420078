//! Plans of edits.
ghost use Rattle.std.specs.Prelude.{◌≡◌, ◌≤◌, ℕ, List, IfOk};
ghost use Rattle.store_history.specs.declared.history.Commit.{Commit};
ghost use Rattle.filter_state.specs.declared.edit.Edit.{Edit as AnEdit};
ghost use Rattle.filter_state.specs.declared.edit.Edit.TheVariants as edits;
ghost use Rattle.filter_state.specs.declared.limits.TheConstants.{LINE_ACTIONS_MAX};
ghost use Rattle.filter_state.specs.declared.refusal.Done.{Done};
ghost use Rattle.filter_state.specs.States.{State};
ghost use Rattle.filter_state.specs.Actions.{is_live};
ghost use Rattle.filter_lists.specs.Spells.{Spells};
ghost use Rattle.hook_store_law.specs.OfEdits.Premises.{now, IsAccepted, IsOfFilters};
ghost use Rattle.desk_needs.specs.Needs.{nothing, made, needs_of};
ghost use Rattle.desk_actions.specs.OfLedgers.Kept.{commits, base};
ghost use Rattle.desk_parts.specs.Desk.{IsDesk};
ghost use Rattle.shared_hook.specs.OfPlans.Plans.{IsPlan};

use crate::plans::means::Means;
use act_kinds::Kind;
use desk_needs::Needs;
use desk_parts::Parts;
use desk_parts::gone_serials::serials_going;
use desk_parts::ways::{Way, way_of};
use filter_lists::Lists;
use filter_state::{ActionLine, Edit};
use std::alloc::Global;
use tc_base::NoMemory;

/// How an accepted edit is going to be done, with all the memory for it.
#[derive(Drop)]
pub enum Plan {
    /// The qdisc comes or goes.
    Mark,
    /// An action is made apart from filters.
    MakeAction,
    /// A live action gets other parameters.
    ChangeAction,
    /// A live action that no filter names is deleted.
    DeleteAction,
    /// A filter comes, goes or is replaced, or a table goes.
    Filters { way: Way, means: Means },
}

// What an edit of one action takes: blocks and slots.
const fn of_action(blocks: u32, actions: u32) -> Needs
    ensures { result ≡ record nothing { blocks = blocks; actions = actions } }
{
    Needs {
        blocks,
        rows: 0,
        masks: 0,
        actions,
        head: None,
    }
}

// Whether an action of that kind and index is there.
fn is_there(lists: &Lists, kind: Kind, index: u32) -> bool
    ensures { (s : State) → Spells lists.now s → result ≡ is_live kind index s.actions }
{
    matches!(lists.actions().find(kind.number(), index), Some(_))
}

// A change of an action that isn't there makes it.
fn plan_change(lists: &Lists, line: &ActionLine) -> Plan
    ensures { (h : List (Commit AnEdit)) → Spells lists.now (now h)
        → IsPlan h (edits.ActionChange line.now) result }
{
    if is_there(lists, line.kind, line.index.unwrap_or(0)) {
        Plan::ChangeAction
    } else {
        Plan::MakeAction
    }
}

// An edit of filters is looked up, and gets its means.
fn plan_filters(alloc: Global, parts: &mut Parts, edit: &Edit) -> Result<Plan, NoMemory>
    requires desk { IsDesk parts.old }
    requires accepted { (t : State) × (done : Done)
        × IsAccepted (commits parts.old.ledger) (base parts.old.ledger) edit.now t done }
    requires filters { IsOfFilters edit.now }
    ensures plan { IfOk result (IsPlan (commits parts.old.ledger) edit.now) }
    ensures same { parts.new ≡ parts.old }
{
    let way = way_of(parts, edit);
    let gone = serials_going(alloc, &parts.ledger.lists, edit)?;
    let means = Means::new(alloc, gone, &way)?;
    Ok(Plan::Filters { way, means })
}

impl Plan {
    /// How an edit is going to be done that is accepted. Nothing changes, whatever is answered.
    ///
    /// `NoMemory`: memory was refused.
    pub fn of(alloc: Global, parts: &mut Parts, edit: &Edit) -> Result<Plan, NoMemory>
        requires desk { IsDesk parts.old }
        requires accepted { (t : State) × (done : Done)
            × IsAccepted (commits parts.old.ledger) (base parts.old.ledger) edit.now t done }
        ensures plan { IfOk result (IsPlan (commits parts.old.ledger) edit.now) }
        ensures same { parts.new ≡ parts.old }
    {
        match edit {
            Edit::HookAdd | Edit::HookDel => Ok(Plan::Mark),
            Edit::ActionAdd(_) => Ok(Plan::MakeAction),
            Edit::ActionChange(line) => Ok(plan_change(&parts.ledger.lists, line)),
            Edit::ActionDel { .. } => Ok(Plan::DeleteAction),
            Edit::FilterAdd(_) | Edit::FilterReplace(_) | Edit::FilterDel { .. } => {
                plan_filters(alloc, parts, edit)
            }
        }
    }

    /// What the edit needs of each pool, where it makes so many actions.
    pub fn needs(&self, actions: u32) -> Needs
        requires plan { (h : List (Commit AnEdit)) × (y : AnEdit) × IsPlan h y self.now }
        requires few { actions ≤ LINE_ACTIONS_MAX }
        ensures needs { (h : List (Commit AnEdit)) (b : ℕ) (y : AnEdit) (t : State) (done : Done)
            → IsAccepted h b y t done → IsPlan h y self.now → actions ≡ made (now h) t
            → result ≡ needs_of (now h) y }
    {
        match self {
            Plan::Mark | Plan::DeleteAction => of_action(0, 0),
            Plan::MakeAction => of_action(1, 1),
            Plan::ChangeAction => of_action(1, 0),
            Plan::Filters { way, .. } => way.needs(actions),
        }
    }
}
