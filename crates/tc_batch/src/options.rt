//! What may stand between a hook and `flower`.
ghost use Rattle.std.specs.Prelude.{◌≡◌, if◌then◌else◌, Some, None};
ghost use Rattle.tc_batch.specs.Options.{no_options, is_given, with_option, may_flower, may_end, qdisc_edit};
ghost use Rattle.tc_batch.specs.Options.{del_edit};

use crate::keywords::{FilterVerb, OptionName, QdiscVerb};
use crate::numbers::{read_chain, read_index, read_pref};
use filter_state::Edit;
use line_words::read_protocol;
use tc_base::{Hook, Proto};

/// What stood between the hook and `flower` so far: `None` where the word didn't.
#[derive(Clone, Copy)]
pub struct Options {
    pub protocol: Option<Proto>,
    pub pref: Option<u32>,
    pub chain: Option<u32>,
    pub handle: Option<u32>,
}

impl Options {
    pub(crate) fn none() -> Self
        ensures { result ≡ no_options }
    {
        Options {
            protocol: None,
            pref: None,
            chain: None,
            handle: None,
        }
    }

    pub(crate) fn has(self, name: OptionName) -> bool
        ensures { result ≡ is_given self name }
    {
        match name {
            OptionName::Protocol => self.protocol.is_some(),
            OptionName::Pref => self.pref.is_some(),
            OptionName::Chain => self.chain.is_some(),
            OptionName::Handle => self.handle.is_some(),
        }
    }

    fn take_protocol(&mut self, word: &[u8]) -> bool
        ensures { (if result then Some self.new else None)
            ≡ with_option self.old OptionName.Protocol word.now }
    {
        let Some(protocol) = read_protocol(word) else {
            return false;
        };
        self.protocol = Some(protocol);
        true
    }

    fn take_pref(&mut self, word: &[u8]) -> bool
        ensures { (if result then Some self.new else None) ≡ with_option self.old OptionName.Pref word.now }
    {
        let Some(pref) = read_pref(word) else {
            return false;
        };
        self.pref = Some(pref);
        true
    }

    fn take_chain(&mut self, word: &[u8]) -> bool
        ensures { (if result then Some self.new else None) ≡ with_option self.old OptionName.Chain word.now }
    {
        let Some(chain) = read_chain(word) else {
            return false;
        };
        self.chain = Some(chain);
        true
    }

    fn take_handle(&mut self, word: &[u8]) -> bool
        ensures { (if result then Some self.new else None) ≡ with_option self.old OptionName.Handle word.now }
    {
        let Some(handle) = read_index(word) else {
            return false;
        };
        self.handle = Some(handle);
        true
    }

    // Takes one more, where the word is a value of that name.
    pub(crate) fn take(&mut self, name: OptionName, word: &[u8]) -> bool
        ensures { (if result then Some self.new else None) ≡ with_option self.old name word.now }
    {
        match name {
            OptionName::Protocol => self.take_protocol(word),
            OptionName::Pref => self.take_pref(word),
            OptionName::Chain => self.take_chain(word),
            OptionName::Handle => self.take_handle(word),
        }
    }

    // Whether `flower` may follow.
    pub(crate) fn may_flower(self, verb: FilterVerb) -> bool
        ensures { result ≡ may_flower verb self }
    {
        match verb {
            FilterVerb::Add => true,
            FilterVerb::Replace => self.pref.is_some() && self.handle.is_some(),
            FilterVerb::Del => self.pref.is_some(),
        }
    }

    // Whether the line may end before `flower`.
    pub(crate) fn may_end(self, verb: FilterVerb) -> bool
        ensures { result ≡ may_end verb self }
    {
        match verb {
            FilterVerb::Add => false,
            FilterVerb::Replace => false,
            FilterVerb::Del => self.pref.is_some() && !self.handle.is_some(),
        }
    }

    pub(crate) fn del_edit(self, hook: Hook) -> Edit
        ensures { result ≡ del_edit hook self }
    {
        Edit::FilterDel {
            hook,
            protocol: self.protocol,
            chain: self.chain.unwrap_or(0),
            pref: self.pref.unwrap_or(0),
            handle: self.handle,
        }
    }
}

pub(crate) fn qdisc_edit(verb: QdiscVerb) -> Edit
    ensures { result ≡ qdisc_edit verb }
{
    match verb {
        QdiscVerb::Add => Edit::HookAdd,
        QdiscVerb::Del => Edit::HookDel,
    }
}
