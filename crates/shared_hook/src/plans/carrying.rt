//! A plan is carried out.
ghost use Rattle.std.specs.Prelude.{◌≡◌, ◌⊎◌};
ghost use Rattle.filter_state.specs.declared.action_line.ActionLine.{ActionLine as LineValue};
ghost use Rattle.filter_state.specs.declared.edit.Edit.TheVariants as edits;

use crate::plans::filtering::edit_filters;
use crate::plans::plan::Plan;
use desk_parts::Parts;
use desk_parts::plain_edits::{change_action, delete_action, make_action, mark_edit};
use filter_lists::{Done, Edit, Prepared};
use filter_state::ActionLine;
use hook_store_law::HookStore;
use store_history::EditName;

// The line of an edit of an action that is made or changed.
fn action_of(edit: &Edit) -> &ActionLine
    requires { (line : LineValue) × ((edit.now ≡ edits.ActionAdd line) ⊎ (edit.now ≡ edits.ActionChange line)) }
    ensures { (line : LineValue) → (edit.now ≡ edits.ActionAdd line) ⊎ (edit.now ≡ edits.ActionChange line)
        → result.now ≡ line }
{
    match edit {
        Edit::ActionAdd(line) => line,
        Edit::ActionChange(line) => line,
        _ => unreachable!(),
    }
}

impl Plan {
    ghost use Rattle.std.specs.Prelude.{◌≡◌};
    ghost use Rattle.pin_store.specs.Calls.{IsSeatOf};
    ghost use Rattle.desk_actions.specs.OfLedgers.Kept.{commits};
    ghost use Rattle.shared_hook.specs.OfPlans.Plans.{IsPlan, IsReadyFor};
    ghost use Rattle.shared_hook.specs.OfPlans.Done.{IsDone};

    /// Does the edit that was planned and made ready, in the lists and by its commits, of which one carries
    /// the edit that `E` names. Nothing is refused, and no memory is taken.
    pub fn carry_out<E: EditName<Edit>>(
        self,
        parts: &mut Parts,
        store: &HookStore,
        edit: &Edit,
        prepared: Prepared,
    ) -> Done
        requires store { IsSeatOf store.now parts.old.ledger.writer.place }
        requires edit { edit.now ≡ E.edit }
        requires ready { IsReadyFor parts.old E.edit prepared }
        requires plan { IsPlan (commits parts.old.ledger) E.edit self }
        ensures store { IsSeatOf store.now parts.new.ledger.writer.place }
        ensures done { IsDone parts.old parts.new E.edit result }
    {
        match self {
            Plan::Mark => mark_edit::<E>(parts, store, prepared),
            Plan::MakeAction => make_action::<E>(parts, store, action_of(edit), prepared),
            Plan::ChangeAction => change_action::<E>(parts, store, action_of(edit), prepared),
            Plan::DeleteAction => match edit {
                Edit::ActionDel { kind, index } => {
                    delete_action::<E>(parts, store, *kind, *index, prepared)
                }
                _ => unreachable!(),
            },
            Plan::Filters { way, means } => {
                edit_filters::<E>(parts, store, edit, prepared, way, means)
            }
        }
    }
}
