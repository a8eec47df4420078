//! The words of a line apart from its actions, one on.
//!
//! Each function goes on to the stage after a word, and answers whether a line goes on with it. Where none
//! does, the stage means nothing. A stage is written where it stands, since it is too large to be handed on
//! word by word.
ghost use Rattle.filter_state.specs.declared.limits.TheConstants.{LINE_ACTIONS_MAX};
ghost use Rattle.std.specs.Prelude.{◌≡◌, [], if◌then◌else◌, Some, None};
ghost use Rattle.std.specs.Option.{option_map};
ghost use Rattle.tc_batch.specs.declared.draft.Draft.{Draft};
ghost use Rattle.tc_batch.specs.States.{State, state_of};
ghost use Rattle.tc_batch.specs.Machine.{on_text, after_kind, after_flower, on_flower, on_setting, on_listed};
ghost use Rattle.tc_batch.specs.Machine.{on_field, after_actions, next_state};

use crate::action_keywords::Site;
use crate::draft::Draft;
use crate::field_name::{FieldName, read_field_name};
use crate::keywords::{
    ActionVerb, FilterVerb, LineKind, OptionName, read_action_verb, read_filter_verb, read_hook,
    read_line_kind, read_option_name, read_qdisc_verb,
};
use crate::kind_names::read_kind;
use crate::numbers::read_index;
use crate::options::Options;
use crate::stage::{Ending, Place, Stage};
use act_kinds::Kind;
use std::alloc::Global;
use tc_words::is_text;

// Goes to the next stage, where the word is that text.
pub(crate) fn after_text(stage: &mut Stage, text: &str, next: Stage, word: &[u8]) -> bool
    ensures { (draft : Draft) → option_map (state_of draft) (if result then Some stage.new else None)
        ≡ on_text text.now (state_of draft next) word.now }
{
    if !is_text(word, text) {
        return false;
    }
    *stage = next;
    true
}

fn begin_line(stage: &mut Stage, kind: LineKind)
    ensures { (draft : Draft) → state_of draft stage.new ≡ after_kind kind }
{
    match kind {
        LineKind::Qdisc => *stage = Stage::Qdisc,
        LineKind::Filter => *stage = Stage::Filter,
        LineKind::Actions => *stage = Stage::Actions,
    }
}

pub(crate) fn after_start(stage: &mut Stage, word: &[u8]) -> bool
    ensures { (draft : Draft) → option_map (state_of draft) (if result then Some stage.new else None)
        ≡ next_state State.Start word.now }
{
    let Some(kind) = read_line_kind(word) else {
        return false;
    };
    begin_line(stage, kind);
    true
}

pub(crate) fn after_qdisc(stage: &mut Stage, word: &[u8]) -> bool
    ensures { (draft : Draft) → option_map (state_of draft) (if result then Some stage.new else None)
        ≡ next_state State.Qdisc word.now }
{
    let Some(verb) = read_qdisc_verb(word) else {
        return false;
    };
    *stage = Stage::QdiscDev(verb);
    true
}

pub(crate) fn after_filter(stage: &mut Stage, word: &[u8]) -> bool
    ensures { (draft : Draft) → option_map (state_of draft) (if result then Some stage.new else None)
        ≡ next_state State.FilterLine word.now }
{
    let Some(verb) = read_filter_verb(word) else {
        return false;
    };
    *stage = Stage::FilterDev(verb);
    true
}

pub(crate) fn after_device(
    draft: &mut Draft,
    stage: &mut Stage,
    verb: FilterVerb,
    word: &[u8],
) -> bool
    ensures { option_map (state_of draft.new) (if result then Some stage.new else None)
        ≡ next_state (State.FilterHook verb) word.now }
{
    let Some(hook) = read_hook(word) else {
        return false;
    };
    draft.head.hook = hook;
    draft.head.options = Options::none();
    *stage = Stage::Settings(verb);
    true
}

fn begin_flower(draft: &mut Draft, stage: &mut Stage, verb: FilterVerb)
    ensures { state_of draft.new stage.new ≡ after_flower verb draft.old.head.hook draft.old.head.options }
{
    match verb {
        FilterVerb::Add => {
            draft.begin_fields(false);
            *stage = Stage::Fielding;
        }
        FilterVerb::Replace => {
            draft.begin_fields(true);
            *stage = Stage::Fielding;
        }
        FilterVerb::Del => *stage = Stage::Done(Ending::FilterDel),
    }
}

// Goes on behind `flower`, where it may follow.
fn after_flower(draft: &mut Draft, stage: &mut Stage, verb: FilterVerb, word: &[u8]) -> bool
    ensures { option_map (state_of draft.new) (if result then Some stage.new else None)
        ≡ on_flower verb draft.old.head.hook draft.old.head.options word.now }
{
    if draft.head.options.may_flower(verb) && is_text(word, "flower") {
        begin_flower(draft, stage, verb);
        true
    } else {
        false
    }
}

pub(crate) fn after_options(
    draft: &mut Draft,
    stage: &mut Stage,
    verb: FilterVerb,
    word: &[u8],
) -> bool
    ensures { option_map (state_of draft.new) (if result then Some stage.new else None)
        ≡ on_setting verb draft.old.head.hook draft.old.head.options word.now }
{
    match read_option_name(word) {
        Some(name) if draft.head.options.has(name) => false,
        Some(name) => {
            *stage = Stage::SettingValue(verb, name);
            true
        }
        None => after_flower(draft, stage, verb, word),
    }
}

pub(crate) fn after_option_name(
    draft: &mut Draft,
    stage: &mut Stage,
    setting: (FilterVerb, OptionName),
    word: &[u8],
) -> bool
    ensures { option_map (state_of draft.new) (if result then Some stage.new else None)
        ≡ next_state (State.SettingValue setting.0 draft.old.head.hook draft.old.head.options setting.1)
        word.now }
{
    let (verb, name) = setting;
    if !draft.head.options.take(name, word) {
        return false;
    }
    *stage = Stage::Settings(verb);
    true
}

// Goes on behind `action`, where one more may come.
pub(crate) fn go_on_listed(draft: &mut Draft, stage: &mut Stage, word: &[u8]) -> bool
    ensures { option_map (state_of draft.new) (if result then Some stage.new else None)
        ≡ on_listed draft.old.head draft.old.actions draft.old.more word.now }
{
    if draft.more == 0 || !is_text(word, "action") {
        return false;
    }
    draft.more -= 1;
    *stage = Stage::Acting(Site::Filter, Place::Begun);
    true
}

fn end_fields(alloc: Global, draft: &mut Draft, stage: &mut Stage, word: &[u8]) -> bool
    ensures { option_map (state_of draft.new) (if result then Some stage.new else None)
        ≡ on_listed draft.old.head [] LINE_ACTIONS_MAX word.now }
{
    draft.begin_actions(alloc);
    go_on_listed(draft, stage, word)
}

pub(crate) fn after_fields(alloc: Global, draft: &mut Draft, stage: &mut Stage, word: &[u8]) -> bool
    ensures { option_map (state_of draft.new) (if result then Some stage.new else None)
        ≡ on_field draft.old.head word.now }
{
    match read_field_name(word) {
        Some(name) if draft.head.fields.refuses(name) => false,
        Some(name) => {
            *stage = Stage::FieldValue(name);
            true
        }
        None => end_fields(alloc, draft, stage, word),
    }
}

pub(crate) fn after_field_name(
    draft: &mut Draft,
    stage: &mut Stage,
    name: FieldName,
    word: &[u8],
) -> bool
    ensures { option_map (state_of draft.new) (if result then Some stage.new else None)
        ≡ next_state (State.FieldValue draft.old.head name) word.now }
{
    if !draft.head.fields.take(name, word) {
        return false;
    }
    *stage = Stage::Fielding;
    true
}

pub(crate) fn after_actions(stage: &mut Stage, word: &[u8]) -> bool
    ensures { (draft : Draft) → option_map (state_of draft) (if result then Some stage.new else None)
        ≡ next_state State.Actions word.now }
{
    let Some(verb) = read_action_verb(word) else {
        return false;
    };
    *stage = Stage::ActionsAction(verb);
    true
}

fn begin_action(stage: &mut Stage, verb: ActionVerb)
    ensures { (draft : Draft) → state_of draft stage.new ≡ after_actions verb }
{
    match verb {
        ActionVerb::Add => *stage = Stage::Acting(Site::Add, Place::Begun),
        ActionVerb::Change => *stage = Stage::Acting(Site::Change, Place::Begun),
        ActionVerb::Del => *stage = Stage::DelKind,
    }
}

pub(crate) fn after_action_verb(stage: &mut Stage, verb: ActionVerb, word: &[u8]) -> bool
    ensures { (draft : Draft) → option_map (state_of draft) (if result then Some stage.new else None)
        ≡ next_state (State.ActionsAction verb) word.now }
{
    if !is_text(word, "action") {
        return false;
    }
    begin_action(stage, verb);
    true
}

pub(crate) fn after_del(stage: &mut Stage, word: &[u8]) -> bool
    ensures { (draft : Draft) → option_map (state_of draft) (if result then Some stage.new else None)
        ≡ next_state State.DelKind word.now }
{
    let Some(kind) = read_kind(word) else {
        return false;
    };
    *stage = Stage::DelIndex(kind);
    true
}

pub(crate) fn after_del_index(stage: &mut Stage, kind: Kind, word: &[u8]) -> bool
    ensures { (draft : Draft) → option_map (state_of draft) (if result then Some stage.new else None)
        ≡ next_state (State.DelNumber kind) word.now }
{
    let Some(index) = read_index(word) else {
        return false;
    };
    *stage = Stage::Done(Ending::ActionDel(kind, index));
    true
}
