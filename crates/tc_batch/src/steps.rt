//! One word on, and the end of the words.
ghost use Rattle.std.specs.Prelude.{◌≡◌, IfOk, if◌then◌else◌, Some, None};
ghost use Rattle.std.specs.Option.{option_map};
ghost use Rattle.tc_batch.specs.States.{context_of, ending_edit, state_of};
ghost use Rattle.tc_batch.specs.Machine.{next_state, on_acting, ends_action, ends_place, edit_at};

use crate::action_keywords::Site;
use crate::action_steps::after_place;
use crate::actions::full_action;
use crate::draft::Draft;
use crate::line_steps::{
    after_action_verb, after_actions, after_del, after_del_index, after_device, after_field_name,
    after_fields, after_filter, after_option_name, after_options, after_qdisc, after_start,
    after_text, go_on_listed,
};
use crate::options::qdisc_edit;
use crate::stage::{Ending, Place, Stage};
use act_kinds::Params;
use filter_state::Edit;
use std::alloc::{AllocError, Global};

// Goes one word on in an action.
#[inline(never)]
fn act(draft: &mut Draft, stage: &mut Stage, word: &[u8]) -> Result<bool, AllocError>
    ensures { IfOk result (λ goes. (site : Site) (place : Place) → stage.old ≡ Stage.Acting site place
        → option_map (state_of draft.new) (if goes then Some stage.new else None)
        ≡ on_acting (context_of draft.old site) place word.now) }
{
    let Stage::Acting(site, place) = *stage else {
        return Ok(false);
    };
    after_place(draft, stage, site, place, word)
}

// Goes one word on. `false` where no line goes on so, and then the stage means nothing.
pub(crate) fn step(
    alloc: Global,
    draft: &mut Draft,
    stage: &mut Stage,
    word: &[u8],
) -> Result<bool, AllocError>
    ensures { IfOk result (λ goes. option_map (state_of draft.new) (if goes then Some stage.new else None)
        ≡ next_state (state_of draft.old stage.old) word.now) }
{
    match *stage {
        Stage::Start => Ok(after_start(stage, word)),
        Stage::Qdisc => Ok(after_qdisc(stage, word)),
        Stage::QdiscDev(verb) => Ok(after_text(stage, "dev", Stage::QdiscName(verb), word)),
        Stage::QdiscName(verb) => Ok(after_text(stage, "eth0", Stage::QdiscClsact(verb), word)),
        Stage::QdiscClsact(verb) => {
            Ok(after_text(stage, "clsact", Stage::Done(Ending::Qdisc(verb)), word))
        }
        Stage::Filter => Ok(after_filter(stage, word)),
        Stage::FilterDev(verb) => Ok(after_text(stage, "dev", Stage::FilterName(verb), word)),
        Stage::FilterName(verb) => Ok(after_text(stage, "eth0", Stage::FilterHook(verb), word)),
        Stage::FilterHook(verb) => Ok(after_device(draft, stage, verb, word)),
        Stage::Settings(verb) => Ok(after_options(draft, stage, verb, word)),
        Stage::SettingValue(verb, name) => Ok(after_option_name(draft, stage, (verb, name), word)),
        Stage::Fielding => Ok(after_fields(alloc, draft, stage, word)),
        Stage::FieldValue(name) => Ok(after_field_name(draft, stage, name, word)),
        Stage::Listed => Ok(go_on_listed(draft, stage, word)),
        Stage::Acting(..) => act(draft, stage, word),
        Stage::Actions => Ok(after_actions(stage, word)),
        Stage::ActionsAction(verb) => Ok(after_action_verb(stage, verb, word)),
        Stage::DelKind => Ok(after_del(stage, word)),
        Stage::DelIndex(kind) => Ok(after_text(stage, "index", Stage::DelNumber(kind), word)),
        Stage::DelNumber(kind) => Ok(after_del_index(stage, kind, word)),
        Stage::Done(_) => Ok(false),
    }
}

fn ending_edit(draft: Draft, ending: Ending) -> Edit
    ensures { result ≡ ending_edit draft ending }
{
    match ending {
        Ending::Qdisc(verb) => qdisc_edit(verb),
        Ending::FilterDel => draft.head.options.del_edit(draft.head.hook),
        Ending::ActionAdd(action) => Edit::ActionAdd(action),
        Ending::ActionChange(action) => Edit::ActionChange(action),
        Ending::ActionDel(kind, index) => Edit::ActionDel { kind, index },
    }
}

fn end_action(mut draft: Draft, site: Site, params: Params) -> Result<Option<Edit>, AllocError>
    ensures { IfOk result (λ edit. edit ≡ ends_action (context_of draft site) params) }
{
    let action = full_action(params, None);
    match site {
        Site::Filter => {
            draft.actions.push(action)?;
            Ok(Some(draft.filter_edit()))
        }
        Site::Add => Ok(Some(Edit::ActionAdd(action))),
        Site::Change => Ok(None),
    }
}

fn end_place(draft: Draft, site: Site, place: Place) -> Result<Option<Edit>, AllocError>
    ensures { IfOk result (λ edit. edit ≡ ends_place (context_of draft site) place) }
{
    match place {
        Place::Whole(params) => end_action(draft, site, params),
        Place::Placed(params) => end_action(draft, site, params),
        Place::Tagging(verb, tag) if tag.id.is_some() => end_action(draft, site, tag.params(verb)),
        Place::Marking(marks) if marks.any() => end_action(draft, site, marks.params()),
        _ => Ok(None),
    }
}

// The edit of a line that ends here. `None` where words are missing.
pub(crate) fn end(alloc: Global, mut draft: Draft, stage: Stage) -> Result<Option<Edit>, AllocError>
    ensures { IfOk result (λ edit. edit ≡ edit_at (state_of draft stage)) }
{
    match stage {
        Stage::Done(ending) => Ok(Some(ending_edit(draft, ending))),
        Stage::Settings(verb) if draft.head.options.may_end(verb) => {
            Ok(Some(draft.head.options.del_edit(draft.head.hook)))
        }
        Stage::Fielding => {
            draft.begin_actions(alloc);
            Ok(Some(draft.filter_edit()))
        }
        Stage::Listed => Ok(Some(draft.filter_edit())),
        Stage::Acting(site, place) => end_place(draft, site, place),
        _ => Ok(None),
    }
}
