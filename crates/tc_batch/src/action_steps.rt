//! The words of an action, one on.
//!
//! Each function goes on to the stage after a word, and answers whether a line goes on with it. Where none
//! does, the stage means nothing.
ghost use Rattle.std.specs.Prelude.{◌≡◌, IfOk, is_some, None, Some, if◌then◌else◌};
ghost use Rattle.std.specs.Option.{option_map};
ghost use Rattle.tc_batch.specs.declared.draft.Draft.{Draft};
ghost use Rattle.tc_batch.specs.ActionKeywords.{control_word};
ghost use Rattle.tc_batch.specs.Actions.{tag_params, has_mark, mark_params};
ghost use Rattle.tc_batch.specs.States.{context_of, state_of};
ghost use Rattle.tc_batch.specs.Machine.{acted, after_control, on_control, after_whole, after_placed};
ghost use Rattle.tc_batch.specs.Machine.{on_placed, on_tagging, on_marking, after_vlan, on_kind, may_name};
ghost use Rattle.tc_batch.specs.Machine.{on_kinded, on_acting};

use crate::action_keywords::{
    ControlWord, MarkName, Site, TagName, TagVerb, VlanVerb, read_control_word, read_mark_name,
    read_tag_name, read_vlan_verb,
};
use crate::actions::{full_action, named_action};
use crate::draft::Draft;
use crate::kind_names::read_kind;
use crate::line_steps::go_on_listed;
use crate::marks::Marks;
use crate::numbers::{read_chain, read_index};
use crate::stage::{Ending, Place, Stage};
use crate::tag::Tag;
use act_kinds::{Control, Kind, Params, VlanOp};
use filter_state::ActionLine;
use std::alloc::AllocError;
use tc_words::is_text;

// Goes on behind a whole action.
fn end_action(
    draft: &mut Draft,
    stage: &mut Stage,
    site: Site,
    action: ActionLine,
) -> Result<(), AllocError>
    ensures { IfOk result (λ _. state_of draft.new stage.new ≡ acted (context_of draft.old site) action) }
{
    match site {
        Site::Filter => {
            draft.actions.push(action)?;
            *stage = Stage::Listed;
        }
        Site::Add => *stage = Stage::Done(Ending::ActionAdd(action)),
        Site::Change => *stage = Stage::Done(Ending::ActionChange(action)),
    }
    Ok(())
}

fn begin_control(stage: &mut Stage, site: Site, base: Params, control: ControlWord)
    ensures { (draft : Draft)
        → state_of draft stage.new ≡ after_control (context_of draft site) base control }
{
    let place = match control {
        ControlWord::Plain(control) => Place::Whole(base.with_control(control)),
        ControlWord::Jump => Place::JumpNumber(base),
        ControlWord::Goto => Place::GotoChain(base),
    };
    *stage = Stage::Acting(site, place);
}

fn control_after(stage: &mut Stage, site: Site, base: Params, word: &[u8]) -> bool
    ensures { (draft : Draft) → option_map (state_of draft) (if result then Some stage.new else None)
        ≡ on_control (context_of draft site) base word.now }
{
    let Some(control) = read_control_word(site, word) else {
        return false;
    };
    begin_control(stage, site, base, control);
    true
}

// Goes on behind the first word of the next action, where the parameters are whole and no index follows.
fn after_params(
    draft: &mut Draft,
    stage: &mut Stage,
    site: Site,
    params: Params,
    word: &[u8],
) -> Result<bool, AllocError>
    ensures { IfOk result (λ goes. option_map (state_of draft.new) (if goes then Some stage.new else None)
        ≡ after_whole (context_of draft.old site) params word.now) }
{
    match site {
        Site::Filter => {
            draft.actions.push(full_action(params, None))?;
            Ok(go_on_listed(draft, stage, word))
        }
        Site::Add => Ok(false),
        Site::Change => Ok(false),
    }
}

fn after_base(
    draft: &mut Draft,
    stage: &mut Stage,
    site: Site,
    base: Params,
    word: &[u8],
) -> Result<bool, AllocError>
    ensures { IfOk result (λ goes. option_map (state_of draft.new) (if goes then Some stage.new else None)
        ≡ after_placed (context_of draft.old site) base word.now (control_word site word.now)) }
{
    match read_control_word(site, word) {
        Some(control) => {
            begin_control(stage, site, base, control);
            Ok(true)
        }
        None => after_params(draft, stage, site, base, word),
    }
}

fn after_placed(
    draft: &mut Draft,
    stage: &mut Stage,
    site: Site,
    base: Params,
    word: &[u8],
) -> Result<bool, AllocError>
    ensures { IfOk result (λ goes. option_map (state_of draft.new) (if goes then Some stage.new else None)
        ≡ on_placed (context_of draft.old site) base word.now) }
{
    if is_text(word, "index") {
        *stage = Stage::Acting(site, Place::FullIndex(base));
        return Ok(true);
    }
    after_base(draft, stage, site, base, word)
}

fn end_tag(
    draft: &mut Draft,
    stage: &mut Stage,
    site: Site,
    params: (TagVerb, Tag),
    word: &[u8],
) -> Result<bool, AllocError>
    ensures { IfOk result (λ goes. option_map (state_of draft.new) (if goes then Some stage.new else None)
        ≡ (if is_some params.1.id
        then on_placed (context_of draft.old site) (tag_params params.0 params.1) word.now else None)) }
{
    let (verb, tag) = params;
    if tag.id.is_none() {
        return Ok(false);
    }
    after_placed(draft, stage, site, tag.params(verb), word)
}

fn after_tag(
    draft: &mut Draft,
    stage: &mut Stage,
    site: Site,
    params: (TagVerb, Tag),
    word: &[u8],
) -> Result<bool, AllocError>
    ensures { IfOk result (λ goes. option_map (state_of draft.new) (if goes then Some stage.new else None)
        ≡ on_tagging (context_of draft.old site) params.0 params.1 word.now) }
{
    let (verb, tag) = params;
    match read_tag_name(word) {
        Some(name) if tag.has(name) => Ok(false),
        Some(name) => {
            *stage = Stage::Acting(site, Place::TagValue(verb, tag, name));
            Ok(true)
        }
        None => end_tag(draft, stage, site, params, word),
    }
}

fn end_marks(
    draft: &mut Draft,
    stage: &mut Stage,
    site: Site,
    marks: Marks,
    word: &[u8],
) -> Result<bool, AllocError>
    ensures { IfOk result (λ goes. option_map (state_of draft.new) (if goes then Some stage.new else None)
        ≡ (if has_mark marks then on_placed (context_of draft.old site) (mark_params marks) word.now
        else None)) }
{
    if !marks.any() {
        return Ok(false);
    }
    after_placed(draft, stage, site, marks.params(), word)
}

fn after_marks(
    draft: &mut Draft,
    stage: &mut Stage,
    site: Site,
    marks: Marks,
    word: &[u8],
) -> Result<bool, AllocError>
    ensures { IfOk result (λ goes. option_map (state_of draft.new) (if goes then Some stage.new else None)
        ≡ on_marking (context_of draft.old site) marks word.now) }
{
    match read_mark_name(word) {
        Some(name) if marks.has(name) => Ok(false),
        Some(name) => {
            *stage = Stage::Acting(site, Place::MarkValue(marks, name));
            Ok(true)
        }
        None => end_marks(draft, stage, site, marks, word),
    }
}

fn begin_vlan(stage: &mut Stage, site: Site, verb: VlanVerb)
    ensures { (draft : Draft) → state_of draft stage.new ≡ after_vlan (context_of draft site) verb }
{
    let place = match verb {
        VlanVerb::Tagged(verb) => Place::Tagging(verb, Tag::none()),
        VlanVerb::Pop => Place::Placed(Params::Vlan(VlanOp::Pop, Control::Pipe)),
    };
    *stage = Stage::Acting(site, place);
}

fn after_vlan(stage: &mut Stage, site: Site, word: &[u8]) -> bool
    ensures { (draft : Draft) → option_map (state_of draft) (if result then Some stage.new else None)
        ≡ on_kind (context_of draft site) Kind.Vlan word.now }
{
    let Some(verb) = read_vlan_verb(word) else {
        return false;
    };
    begin_vlan(stage, site, verb);
    true
}

fn after_skbedit(
    draft: &mut Draft,
    stage: &mut Stage,
    site: Site,
    word: &[u8],
) -> Result<bool, AllocError>
    ensures { IfOk result (λ goes. option_map (state_of draft.new) (if goes then Some stage.new else None)
        ≡ on_kind (context_of draft.old site) Kind.Skbedit word.now) }
{
    after_marks(draft, stage, site, Marks::none(), word)
}

fn after_kind(
    draft: &mut Draft,
    stage: &mut Stage,
    site: Site,
    kind: Kind,
    word: &[u8],
) -> Result<bool, AllocError>
    ensures { IfOk result (λ goes. option_map (state_of draft.new) (if goes then Some stage.new else None)
        ≡ on_kind (context_of draft.old site) kind word.now) }
{
    match kind {
        Kind::Gact => Ok(control_after(stage, site, Params::Gact(Control::Accept), word)),
        Kind::Vlan => Ok(after_vlan(stage, site, word)),
        Kind::Skbedit => after_skbedit(draft, stage, site, word),
    }
}

// Only in a filter an action is named by its kind and index alone.
fn begin_named(stage: &mut Stage, site: Site, kind: Kind) -> bool
    ensures { (draft : Draft) → option_map (state_of draft) (if result then Some stage.new else None)
        ≡ (if may_name (context_of draft site)
        then Some (state_of draft (Stage.Acting site (Place.NamedIndex kind))) else None) }
{
    match site {
        Site::Filter => {
            *stage = Stage::Acting(Site::Filter, Place::NamedIndex(kind));
            true
        }
        Site::Add => false,
        Site::Change => false,
    }
}

fn after_kind_word(
    draft: &mut Draft,
    stage: &mut Stage,
    site: Site,
    kind: Kind,
    word: &[u8],
) -> Result<bool, AllocError>
    ensures { IfOk result (λ goes. option_map (state_of draft.new) (if goes then Some stage.new else None)
        ≡ on_kinded (context_of draft.old site) kind word.now) }
{
    if is_text(word, "index") {
        return Ok(begin_named(stage, site, kind));
    }
    after_kind(draft, stage, site, kind, word)
}

fn after_begun(stage: &mut Stage, site: Site, word: &[u8]) -> bool
    ensures { (draft : Draft) → option_map (state_of draft) (if result then Some stage.new else None)
        ≡ on_acting (context_of draft site) Place.Begun word.now }
{
    match read_kind(word) {
        Some(kind) => {
            *stage = Stage::Acting(site, Place::Kinded(kind));
            true
        }
        None => control_after(stage, site, Params::Gact(Control::Accept), word),
    }
}

fn after_tag_name(
    stage: &mut Stage,
    site: Site,
    verb: TagVerb,
    value: (Tag, TagName),
    word: &[u8],
) -> bool
    ensures { (draft : Draft) → option_map (state_of draft) (if result then Some stage.new else None)
        ≡ on_acting (context_of draft site) (Place.TagValue verb value.0 value.1) word.now }
{
    let (tag, name) = value;
    let Some(tag) = tag.with(name, word) else {
        return false;
    };
    *stage = Stage::Acting(site, Place::Tagging(verb, tag));
    true
}

fn after_mark_name(stage: &mut Stage, site: Site, marks: Marks, name: MarkName, word: &[u8]) -> bool
    ensures { (draft : Draft) → option_map (state_of draft) (if result then Some stage.new else None)
        ≡ on_acting (context_of draft site) (Place.MarkValue marks name) word.now }
{
    let Some(marks) = marks.with(name, word) else {
        return false;
    };
    *stage = Stage::Acting(site, Place::Marking(marks));
    true
}

fn after_jump(stage: &mut Stage, site: Site, base: Params, word: &[u8]) -> bool
    ensures { (draft : Draft) → option_map (state_of draft) (if result then Some stage.new else None)
        ≡ on_acting (context_of draft site) (Place.JumpNumber base) word.now }
{
    let Some(chain) = read_chain(word) else {
        return false;
    };
    let params = base.with_control(Control::Jump(chain));
    *stage = Stage::Acting(site, Place::Whole(params));
    true
}

fn after_goto_word(stage: &mut Stage, site: Site, base: Params, word: &[u8]) -> bool
    ensures { (draft : Draft) → option_map (state_of draft) (if result then Some stage.new else None)
        ≡ on_acting (context_of draft site) (Place.GotoChain base) word.now }
{
    if !is_text(word, "chain") {
        return false;
    }
    *stage = Stage::Acting(site, Place::GotoNumber(base));
    true
}

fn after_goto(stage: &mut Stage, site: Site, base: Params, word: &[u8]) -> bool
    ensures { (draft : Draft) → option_map (state_of draft) (if result then Some stage.new else None)
        ≡ on_acting (context_of draft site) (Place.GotoNumber base) word.now }
{
    let Some(chain) = read_chain(word) else {
        return false;
    };
    let params = base.with_control(Control::Goto(chain));
    *stage = Stage::Acting(site, Place::Whole(params));
    true
}

fn after_whole(
    draft: &mut Draft,
    stage: &mut Stage,
    site: Site,
    params: Params,
    word: &[u8],
) -> Result<bool, AllocError>
    ensures { IfOk result (λ goes. option_map (state_of draft.new) (if goes then Some stage.new else None)
        ≡ on_acting (context_of draft.old site) (Place.Whole params) word.now) }
{
    if is_text(word, "index") {
        *stage = Stage::Acting(site, Place::FullIndex(params));
        return Ok(true);
    }
    after_params(draft, stage, site, params, word)
}

fn after_index(
    draft: &mut Draft,
    stage: &mut Stage,
    site: Site,
    params: Params,
    word: &[u8],
) -> Result<bool, AllocError>
    ensures { IfOk result (λ goes. option_map (state_of draft.new) (if goes then Some stage.new else None)
        ≡ on_acting (context_of draft.old site) (Place.FullIndex params) word.now) }
{
    match read_index(word) {
        Some(index) => {
            end_action(draft, stage, site, full_action(params, Some(index)))?;
            Ok(true)
        }
        None => Ok(false),
    }
}

fn after_named(
    draft: &mut Draft,
    stage: &mut Stage,
    site: Site,
    kind: Kind,
    word: &[u8],
) -> Result<bool, AllocError>
    ensures { IfOk result (λ goes. option_map (state_of draft.new) (if goes then Some stage.new else None)
        ≡ on_acting (context_of draft.old site) (Place.NamedIndex kind) word.now) }
{
    match read_index(word) {
        Some(index) => {
            end_action(draft, stage, site, named_action(kind, index))?;
            Ok(true)
        }
        None => Ok(false),
    }
}

// Goes one word on in an action.
pub(crate) fn after_place(
    draft: &mut Draft,
    stage: &mut Stage,
    site: Site,
    place: Place,
    word: &[u8],
) -> Result<bool, AllocError>
    ensures { IfOk result (λ goes. option_map (state_of draft.new) (if goes then Some stage.new else None)
        ≡ on_acting (context_of draft.old site) place word.now) }
{
    match place {
        Place::Begun => Ok(after_begun(stage, site, word)),
        Place::Kinded(kind) => after_kind_word(draft, stage, site, kind, word),
        Place::Tagging(verb, tag) => after_tag(draft, stage, site, (verb, tag), word),
        Place::TagValue(verb, tag, name) => Ok(after_tag_name(
            stage,
            site,
            verb,
            (tag, name),
            word,
        )),
        Place::Marking(marks) => after_marks(draft, stage, site, marks, word),
        Place::MarkValue(marks, name) => Ok(after_mark_name(stage, site, marks, name, word)),
        Place::Placed(base) => after_placed(draft, stage, site, base, word),
        Place::JumpNumber(base) => Ok(after_jump(stage, site, base, word)),
        Place::GotoChain(base) => Ok(after_goto_word(stage, site, base, word)),
        Place::GotoNumber(base) => Ok(after_goto(stage, site, base, word)),
        Place::Whole(params) => after_whole(draft, stage, site, params, word),
        Place::FullIndex(params) => after_index(draft, stage, site, params, word),
        Place::NamedIndex(kind) => after_named(draft, stage, site, kind, word),
    }
}
