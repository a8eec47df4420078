//! What was read of a line.
ghost use Rattle.filter_state.specs.declared.limits.TheConstants.{LINE_ACTIONS_MAX};
ghost use Rattle.std.specs.Prelude.{◌≡◌, []};
ghost use Rattle.tc_batch.specs.Fields.{filter_head, filter_line, filter_edit};

use crate::fields::Fields;
use crate::options::Options;
use filter_state::{ActionLines, Edit, FilterLine, LINE_ACTIONS_MAX};
use std::alloc::Global;
use tc_base::{Hook, Proto};

/// A filter line up to its actions.
#[derive(Clone, Copy)]
pub struct Head {
    pub replaces: bool,
    pub hook: Hook,
    pub options: Options,
    pub fields: Fields,
}

/// A filter line as far as it was read, with its actions, and how many may still come.
///
/// Each word is put into the draft where it stands, since a draft is too large to be handed on word by word.
/// What a line has not come to yet means nothing.
#[derive(Drop)]
pub struct Draft {
    pub head: Head,
    pub actions: ActionLines,
    pub more: u32,
}

/// How many actions a filter may still be given at first.
const MOST_ACTIONS: u32 = LINE_ACTIONS_MAX as u32;

impl Draft {
    pub(crate) fn new(alloc: Global) -> Self {
        Draft {
            head: Head {
                replaces: false,
                hook: Hook::Ingress,
                options: Options::none(),
                fields: Fields::none(),
            },
            actions: ActionLines::new(alloc),
            more: MOST_ACTIONS,
        }
    }

    // Begins the fields of a filter.
    pub(crate) fn begin_fields(&mut self, replaces: bool)
        ensures head { self.new.head ≡ filter_head replaces self.old.head.hook self.old.head.options }
    {
        self.head.replaces = replaces;
        self.head.fields = Fields::none();
    }

    // Begins the actions of a filter.
    pub(crate) fn begin_actions(&mut self, alloc: Global)
        ensures head { self.new.head ≡ self.old.head }
        ensures actions { self.new.actions ≡ [] }
        ensures more { self.new.more ≡ LINE_ACTIONS_MAX }
    {
        self.actions = ActionLines::new(alloc);
        self.more = MOST_ACTIONS;
    }

    fn filter_line(self) -> FilterLine
        ensures { result ≡ filter_line self.head self.actions }
    {
        let Draft { head, actions, .. } = self;
        FilterLine {
            hook: head.hook,
            protocol: head.options.protocol.unwrap_or(Proto::All),
            chain: head.options.chain.unwrap_or(0),
            pref: head.options.pref,
            handle: head.options.handle,
            mask: head.fields.mask,
            key: head.fields.key,
            actions,
        }
    }

    // The edit of a filter line that ends here.
    pub(crate) fn filter_edit(self) -> Edit
        ensures { result ≡ filter_edit self.head self.actions }
    {
        if self.head.replaces {
            Edit::FilterReplace(self.filter_line())
        } else {
            Edit::FilterAdd(self.filter_line())
        }
    }
}
