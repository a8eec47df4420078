//! What an edit of filters says.
ghost use Rattle.std.specs.Prelude.{◌≡◌, ℕ, Some, Option};
ghost use Rattle.tc_base.specs.declared.hook.Hook.{Hook};
ghost use Rattle.tc_base.specs.declared.hook.Proto.{Proto};
ghost use Rattle.filter_state.specs.declared.edit.Edit.TheVariants as edits;
ghost use Rattle.filter_state.specs.declared.edit.FilterLine.{FilterLine as LineValue};
ghost use Rattle.shared_hook.specs.OfPlans.Plans.{IsOfLine};

use filter_state::{Edit, FilterLine};

/// The line of an edit that adds or replaces a filter.
pub(crate) fn line_of(edit: &Edit) -> &FilterLine
    requires { (line : LineValue) × IsOfLine line edit.now }
    ensures { (line : LineValue) → IsOfLine line edit.now → result.now ≡ line }
{
    match edit {
        Edit::FilterAdd(line) => line,
        Edit::FilterReplace(line) => line,
        _ => unreachable!(),
    }
}

/// The handle of an edit that deletes one filter.
pub(crate) fn handle_of(edit: &Edit) -> u32
    requires { (hook : Hook) × (protocol : Option Proto) × (chain : ℕ) × (pref : ℕ) × (handle : ℕ)
        × (edit.now ≡ edits.FilterDel hook protocol chain pref (Some handle)) }
    ensures { (hook : Hook) (protocol : Option Proto) (chain pref handle : ℕ)
        → edit.now ≡ edits.FilterDel hook protocol chain pref (Some handle) → result ≡ handle }
{
    match edit {
        Edit::FilterDel {
            handle: Some(handle),
            ..
        } => *handle,
        _ => unreachable!(),
    }
}
