//! The keywords of a line.
ghost use Rattle.std.specs.Prelude.{◌≡◌};
ghost use Rattle.tc_batch.specs.Keywords.{line_kind, qdisc_verb, filter_verb, action_verb, hook_word};
ghost use Rattle.tc_batch.specs.Keywords.{option_name};

use tc_base::Hook;
use tc_words::is_text;

/// What a line is about.
#[derive(Clone, Copy)]
pub enum LineKind {
    Qdisc,
    Filter,
    Actions,
}

#[derive(Clone, Copy)]
pub enum QdiscVerb {
    Add,
    Del,
}

#[derive(Clone, Copy)]
pub enum FilterVerb {
    Add,
    Replace,
    Del,
}

#[derive(Clone, Copy)]
pub enum ActionVerb {
    Add,
    Change,
    Del,
}

/// The names that may stand between a hook and `flower`, each with a value behind it.
#[derive(Clone, Copy)]
pub enum OptionName {
    Protocol,
    Pref,
    Chain,
    Handle,
}

/// What a word spells: the value behind the text that it is.
macro_rules! spelled {
    ($word:expr; $($text:literal => $value:expr),+ $(,)?) => {
        $(if is_text($word, $text) { Some($value) } else)+ { None }
    };
}

pub(crate) use spelled;

pub(crate) fn read_line_kind(word: &[u8]) -> Option<LineKind>
    ensures { result ≡ line_kind word.now }
{
    spelled!(word;
        "qdisc" => LineKind::Qdisc,
        "filter" => LineKind::Filter,
        "actions" => LineKind::Actions,
    )
}

pub(crate) fn read_qdisc_verb(word: &[u8]) -> Option<QdiscVerb>
    ensures { result ≡ qdisc_verb word.now }
{
    spelled!(word;
        "add" => QdiscVerb::Add,
        "del" => QdiscVerb::Del,
    )
}

pub(crate) fn read_filter_verb(word: &[u8]) -> Option<FilterVerb>
    ensures { result ≡ filter_verb word.now }
{
    spelled!(word;
        "add" => FilterVerb::Add,
        "replace" => FilterVerb::Replace,
        "del" => FilterVerb::Del,
    )
}

pub(crate) fn read_action_verb(word: &[u8]) -> Option<ActionVerb>
    ensures { result ≡ action_verb word.now }
{
    spelled!(word;
        "add" => ActionVerb::Add,
        "change" => ActionVerb::Change,
        "del" => ActionVerb::Del,
    )
}

pub(crate) fn read_hook(word: &[u8]) -> Option<Hook>
    ensures { result ≡ hook_word word.now }
{
    spelled!(word;
        "ingress" => Hook::Ingress,
        "egress" => Hook::Egress,
    )
}

// The four spellings of pref are one word.
pub(crate) fn read_option_name(word: &[u8]) -> Option<OptionName>
    ensures { result ≡ option_name word.now }
{
    spelled!(word;
        "protocol" => OptionName::Protocol,
        "pref" => OptionName::Pref,
        "prio" => OptionName::Pref,
        "priority" => OptionName::Pref,
        "preference" => OptionName::Pref,
        "chain" => OptionName::Chain,
        "handle" => OptionName::Handle,
    )
}
