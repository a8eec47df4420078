//! The keywords of an action.
ghost use Rattle.std.specs.Prelude.{◌≡◌};
ghost use Rattle.tc_batch.specs.ActionKeywords.{goto_word, control_word, vlan_verb, tag_name, mark_name};

use crate::keywords::spelled;
use act_kinds::Control;
use tc_words::is_text;

/// Where an action stands.
#[derive(Clone, Copy)]
pub enum Site {
    Filter,
    /// `actions add`
    Add,
    /// `actions change`
    Change,
}

/// The first word of a control. A jump has a number behind it, and a goto the word `chain` and a number.
#[derive(Clone, Copy)]
pub enum ControlWord {
    Plain(Control),
    Jump,
    Goto,
}

/// What is done with the tag that a vlan action names.
#[derive(Clone, Copy)]
pub enum TagVerb {
    Push,
    Modify,
}

#[derive(Clone, Copy)]
pub enum VlanVerb {
    Tagged(TagVerb),
    Pop,
}

/// The names of a tag's parts, each with a value behind it.
#[derive(Clone, Copy)]
pub enum TagName {
    Id,
    Priority,
    Protocol,
}

/// The names of what skbedit sets, each with a value behind it.
#[derive(Clone, Copy)]
pub enum MarkName {
    Priority,
    Mark,
    Queue,
}

// Only an action that is written in a filter goes to a chain.
fn goto_at(site: Site) -> Option<ControlWord>
    ensures { result ≡ goto_word site }
{
    match site {
        Site::Filter => Some(ControlWord::Goto),
        Site::Add => None,
        Site::Change => None,
    }
}

pub(crate) fn read_control_word(site: Site, word: &[u8]) -> Option<ControlWord>
    ensures { result ≡ control_word site word.now }
{
    if is_text(word, "goto") {
        return goto_at(site);
    }
    spelled!(word;
        "ok" => ControlWord::Plain(Control::Accept),
        "pass" => ControlWord::Plain(Control::Accept),
        "drop" => ControlWord::Plain(Control::Shot),
        "shot" => ControlWord::Plain(Control::Shot),
        "continue" => ControlWord::Plain(Control::Unspec),
        "pipe" => ControlWord::Plain(Control::Pipe),
        "reclassify" => ControlWord::Plain(Control::Reclassify),
        "jump" => ControlWord::Jump,
    )
}

pub(crate) fn read_vlan_verb(word: &[u8]) -> Option<VlanVerb>
    ensures { result ≡ vlan_verb word.now }
{
    spelled!(word;
        "push" => VlanVerb::Tagged(TagVerb::Push),
        "pop" => VlanVerb::Pop,
        "modify" => VlanVerb::Tagged(TagVerb::Modify),
    )
}

pub(crate) fn read_tag_name(word: &[u8]) -> Option<TagName>
    ensures { result ≡ tag_name word.now }
{
    spelled!(word;
        "id" => TagName::Id,
        "priority" => TagName::Priority,
        "protocol" => TagName::Protocol,
    )
}

pub(crate) fn read_mark_name(word: &[u8]) -> Option<MarkName>
    ensures { result ≡ mark_name word.now }
{
    spelled!(word;
        "priority" => MarkName::Priority,
        "mark" => MarkName::Mark,
        "queue_mapping" => MarkName::Queue,
    )
}
