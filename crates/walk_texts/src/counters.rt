//! The line of an action.
ghost use Rattle.std.specs.Prelude.{◌≡◌, ◌++◌, OnOk};
ghost use Rattle.walk_texts.specs.Texts.{action_text, count_text, counter_line};

use crate::pieces::{push_count, push_text};
use batch_run::MadeAction;
use std::alloc::AllocError;
use tc_batch::kind_name;
use walk_ends::Count;

#[tactic(auto, unfolding(crate::specs::Texts::action_text))]
fn push_action(out: &mut Vec<u8>, made: &MadeAction) -> Result<(), AllocError>
    ensures { OnOk result (out.new.items ≡ out.old.items ++ action_text made.now) }
{
    push_count(out, "counter serial ", u64::from(made.serial))?;
    push_text(out, " ")?;
    push_text(out, kind_name(made.kind))?;
    push_count(out, " index ", u64::from(made.index))
}

#[tactic(auto, unfolding(crate::specs::Texts::count_text))]
fn push_counts(out: &mut Vec<u8>, count: &Count) -> Result<(), AllocError>
    ensures { OnOk result (out.new.items ≡ out.old.items ++ count_text count.now) }
{
    push_count(out, " packets ", count.packets)?;
    push_count(out, " bytes ", count.bytes)
}

/// Puts the line of an action behind what is there: how often it ran, and on how many bytes.
///
/// `AllocError`: memory was refused.
pub fn push_counter(out: &mut Vec<u8>, made: &MadeAction, count: &Count) -> Result<(), AllocError>
    ensures { OnOk result (out.new.items ≡ out.old.items ++ counter_line made.now count.now) }
{
    push_action(out, made)?;
    push_counts(out, count)?;
    push_text(out, "\n")
}
