//! The tag of a vlan action.
ghost use Rattle.std.specs.Prelude.{◌≡◌};
ghost use Rattle.tc_batch.specs.Actions.{no_tag, is_tagged, with_tag, tag_params};

use crate::action_keywords::{TagName, TagVerb};
use act_kinds::{Control, Params, VlanOp};
use line_words::{read_number_between, read_tpid};

/// The EtherType of a customer's tag (IEEE 802.1Q, clause 9.5).
const CUSTOMER_TAG: u16 = 0x8100;

/// What stood of a tag so far: `None` where the word didn't.
#[derive(Clone, Copy)]
pub struct Tag {
    pub id: Option<u16>,
    pub priority: Option<u8>,
    pub protocol: Option<u16>,
}

impl Tag {
    pub(crate) fn none() -> Self
        ensures { result ≡ no_tag }
    {
        Tag {
            id: None,
            priority: None,
            protocol: None,
        }
    }

    pub(crate) fn has(self, name: TagName) -> bool
        ensures { result ≡ is_tagged self name }
    {
        match name {
            TagName::Id => self.id.is_some(),
            TagName::Priority => self.priority.is_some(),
            TagName::Protocol => self.protocol.is_some(),
        }
    }

    // The tag with one part more, where the word is a value of that name.
    pub(crate) fn with(self, name: TagName, word: &[u8]) -> Option<Self>
        ensures { result ≡ with_tag self name word.now }
    {
        match name {
            TagName::Id => {
                let id = read_number_between(word, 0, 4_094)? as u16;
                Some(Tag {
                    id: Some(id),
                    ..self
                })
            }
            TagName::Priority => {
                let priority = read_number_between(word, 0, 7)? as u8;
                Some(Tag {
                    priority: Some(priority),
                    ..self
                })
            }
            TagName::Protocol => {
                let protocol = read_tpid(word)?;
                Some(Tag {
                    protocol: Some(protocol),
                    ..self
                })
            }
        }
    }

    // What the action does if no control follows.
    pub(crate) fn params(self, verb: TagVerb) -> Params
        ensures { result ≡ tag_params verb self }
    {
        let tpid = self.protocol.unwrap_or(CUSTOMER_TAG);
        let id = self.id.unwrap_or(0);
        let op = match verb {
            TagVerb::Push => VlanOp::Push {
                tpid,
                id,
                priority: self.priority.unwrap_or(0),
            },
            TagVerb::Modify => VlanOp::Modify {
                tpid,
                id,
                priority: self.priority,
            },
        };
        Params::Vlan(op, Control::Pipe)
    }
}
