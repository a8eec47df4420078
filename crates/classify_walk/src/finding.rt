//! A mask by its name, and its filter for a frame.
ghost use Rattle.filter_state.specs.declared.limits.TheConstants.{LINE_ACTIONS_MAX};
ghost use Rattle.std.specs.Prelude.{◌≡◌, ◌≤◌, ℕ, [], false, length, map, find, is_some, Some, None};
ghost use Rattle.std.specs.Prelude.{IsSomeAnd, IfSome, IfNone};
ghost use Rattle.std.specs.List.{list_any};
ghost use Rattle.flow_fields.specs.Values.{values_of};
ghost use Rattle.filter_state.specs.States.{State};
ghost use Rattle.filter_state.specs.Sound.{Each};
ghost use Rattle.filter_tables.specs.Seen.{plain_table};
ghost use Rattle.filter_tables.specs.SeenMask.{plain_mask};
ghost use Rattle.hook_lists.specs.States.{AreKept};
ghost use Rattle.filter_lists.specs.Spells.{Spells};
ghost use Rattle.walk_rules.specs.Questions.{filter_of};
ghost use Rattle.walk_rules.specs.Answers.{answer_of};
ghost use Rattle.visit_room.specs.declared.names.ActionName.{ActionName as ActionValue};
ghost use Rattle.walk_steps.specs.Told.{filter_told, action_serials};
ghost use Rattle.classify_walk.specs.Answered.{StandsMask, StandsAction};
ghost use Rattle.classify_walk.specs.Found.{is_mask, has_mask, IsOneOf, IsIn, IsMaskOf, is_met, actions_in};
ghost use Rattle.classify_walk.specs.Found.{FewActions, AreTidy};

use filter_lists::{FilterTable, Lists, MaskList};
use flow_fields::Key;
use tc_base::Hook;
use visit_room::{ActionName, Hit, MaskName};

/// Whether a frame of that key meets a filter of the mask; its actions are told.
pub(crate) fn look_up(lists: &Lists, mask: MaskName, key: &Key<14>, into: &mut Hit) -> bool
    requires empty { into.old ≡ [] }
    requires known { StandsMask lists.now mask.serial }
    ensures told { (table : ℕ) (s : State) → Spells lists.now s
        → answer_of s (filter_of table mask.serial (values_of key.now.words))
        ≡ Some (filter_told result into.new) }
    ensures actions { Each (λ (action : ActionValue). StandsAction lists.now action.serial) into.new }
    ensures kept { AreKept lists.now }
{
    match mask_named(lists, mask) {
        Some(list) => find_actions(list, key, into),
        None => false,
    }
}

// The mask with that serial.
fn mask_named(lists: &Lists, mask: MaskName) -> Option<&MaskList>
    requires { StandsMask lists.now mask.serial }
    ensures { IsSomeAnd result (λ list. IsMaskOf lists.now mask.serial (plain_mask list.now)) }
{
    match mask_at(lists, mask) {
        Some(list) => Some(list),
        None => match search(lists.tables(Hook::Ingress), mask.serial) {
            Some(list) => Some(list),
            None => search(lists.tables(Hook::Egress), mask.serial),
        },
    }
}

// The mask at the place that the slot names, if it is the one.
fn mask_at(lists: &Lists, mask: MaskName) -> Option<&MaskList>
    ensures { IfSome result (λ list. IsMaskOf lists.now mask.serial (plain_mask list.now)) }
{
    let hook = if mask.slot & 1 == 0 {
        Hook::Ingress
    } else {
        Hook::Egress
    };
    let table = lists.tables(hook).get((mask.slot >> 5) as usize)?;
    let list = table.masks.as_slice().get((mask.slot >> 1 & 15) as usize)?;
    if list.serial() == mask.serial {
        Some(list)
    } else {
        None
    }
}

// The mask with that serial among those of some tables.
fn search(tables: &[FilterTable], serial: u32) -> Option<&MaskList>
    ensures found { IfSome result (λ list. IsIn (map plain_table tables.now) serial (plain_mask list.now)) }
    ensures missing { IfNone result (list_any (has_mask serial) (map plain_table tables.now) ≡ false) }
{
    for table in tables {
        if let Some(list) = mask_in(table.masks.as_slice(), serial) {
            return Some(list);
        }
    }
    None
}

// The mask with that serial among those of a table.
fn mask_in(masks: &[MaskList], serial: u32) -> Option<&MaskList>
    ensures found { IfSome result (λ list. IsOneOf (map plain_mask masks.now) serial (plain_mask list.now)) }
    ensures missing { IfNone result (list_any (is_mask serial) (map plain_mask masks.now) ≡ false) }
{
    for list in masks {
        if list.serial() == serial {
            return Some(list);
        }
    }
    None
}

// Whether the mask has a filter that a frame of that key meets; its actions are told.
fn find_actions(list: &MaskList, key: &Key<14>, into: &mut Hit) -> bool
    requires empty { into.old ≡ [] }
    requires few { FewActions (plain_mask list.now) }
    requires tidy { AreTidy (plain_mask list.now) }
    ensures found { result
        ≡ is_some (find (is_met (values_of key.now.words) (plain_mask list.now)) list.now.filters.filters) }
    ensures actions { action_serials into.new
        ≡ actions_in
        (find (is_met (values_of key.now.words) (plain_mask list.now)) list.now.filters.filters) }
{
    let _words = words_of(key);
    match list.met(key) {
        None => false,
        Some(filter) => {
            tell_actions(filter.actions.as_slice(), into);
            true
        }
    }
}

// The words of a key: fourteen, by its type.
fn words_of(key: &Key<14>) -> &[u64]
    ensures same { result.now ≡ key.now.words }
    ensures count { length key.now.words ≡ 14 }
{
    &key.words
}

// Tells the actions of a filter.
fn tell_actions(serials: &[u32], into: &mut Hit)
    requires empty { into.old ≡ [] }
    requires few { length serials.now ≤ LINE_ACTIONS_MAX }
    ensures { action_serials into.new ≡ serials.now }
{
    for serial in serials {
        into.push(ActionName {
            serial: *serial,
            slot: 0,
        });
    }
}
