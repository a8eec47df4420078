//! How far a line has come.

use crate::action_keywords::{MarkName, Site, TagName, TagVerb};
use crate::field_name::FieldName;
use crate::keywords::{ActionVerb, FilterVerb, OptionName, QdiscVerb};
use crate::marks::Marks;
use crate::tag::Tag;
use act_kinds::{Kind, Params};
use filter_state::ActionLine;

/// How far an action has come. Parameters hold the control that stands if none follows.
#[derive(Clone, Copy)]
pub enum Place {
    /// After `action`.
    Begun,
    Kinded(Kind),
    Tagging(TagVerb, Tag),
    TagValue(TagVerb, Tag, TagName),
    Marking(Marks),
    MarkValue(Marks, MarkName),
    /// Before the control, or what follows it.
    Placed(Params),
    JumpNumber(Params),
    GotoChain(Params),
    GotoNumber(Params),
    /// After the control.
    Whole(Params),
    FullIndex(Params),
    NamedIndex(Kind),
}

/// What a line asks for that is no filter to be added or replaced, once its last word was read.
#[derive(Clone, Copy)]
pub enum Ending {
    Qdisc(QdiscVerb),
    FilterDel,
    ActionAdd(ActionLine),
    ActionChange(ActionLine),
    ActionDel(Kind, u32),
}

/// How far a line has come: after which words it is, or which one word has to follow. What was read of a
/// filter is in the draft.
#[derive(Clone, Copy)]
pub enum Stage {
    Start,
    Qdisc,
    QdiscDev(QdiscVerb),
    QdiscName(QdiscVerb),
    QdiscClsact(QdiscVerb),
    Filter,
    FilterDev(FilterVerb),
    FilterName(FilterVerb),
    FilterHook(FilterVerb),
    Settings(FilterVerb),
    SettingValue(FilterVerb, OptionName),
    Fielding,
    FieldValue(FieldName),
    Listed,
    Acting(Site, Place),
    Actions,
    ActionsAction(ActionVerb),
    DelKind,
    DelIndex(Kind),
    DelNumber(Kind),
    Done(Ending),
}
