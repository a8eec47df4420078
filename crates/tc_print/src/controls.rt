//! Controls and indices.
ghost use Rattle.std.specs.Prelude.{◌≡◌, [], ◌∷◌, fold, OnOk};
ghost use Rattle.act_kinds.specs.declared.params.Control.TheVariants as controls;
ghost use Rattle.tc_print.specs.ActionWords.{control_words, index_words};
ghost use Rattle.tc_print.specs.Texts.{onto};

use crate::texts::{push_named, push_word};
use act_kinds::Control;
use std::alloc::AllocError;

fn push_goto(out: &mut Vec<u8>, chain: u32) -> Result<(), AllocError>
    ensures { OnOk result (out.new.items ≡ fold onto out.old.items (control_words (controls.Goto chain))) }
{
    push_word(out, "goto")?;
    push_named(out, "chain", u64::from(chain))
}

pub(crate) fn push_control(out: &mut Vec<u8>, control: Control) -> Result<(), AllocError>
    ensures { OnOk result (out.new.items ≡ fold onto out.old.items (control_words control)) }
{
    match control {
        Control::Accept => push_word(out, "ok"),
        Control::Shot => push_word(out, "drop"),
        Control::Unspec => push_word(out, "continue"),
        Control::Pipe => push_word(out, "pipe"),
        Control::Reclassify => push_word(out, "reclassify"),
        Control::Jump(place) => push_named(out, "jump", u64::from(place)),
        Control::Goto(chain) => push_goto(out, chain),
    }
}

/// Puts `index N` behind a line, where there is an index, with a space before it unless the line is empty.
///
/// `AllocError`: memory was refused.
pub fn push_index(out: &mut Vec<u8>, index: Option<u32>) -> Result<(), AllocError>
    ensures { OnOk result (out.new.items ≡ fold onto out.old.items (index_words index)) }
{
    match index {
        Some(index) => push_named(out, "index", u64::from(index)),
        None => Ok(()),
    }
}
