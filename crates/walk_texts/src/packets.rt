//! How a packet's line tells that it ended.
ghost use Rattle.std.specs.Prelude.{◌≡◌, ◌++◌, OnOk};
ghost use Rattle.walk_texts.specs.Texts.{verdict_text, meta_text, end_text};

use crate::pieces::{push_count, push_text};
use frame_edit::Meta;
use line_texts::push_class;
use std::alloc::AllocError;
use walk_rules::Verdict;

fn verdict_text(verdict: Verdict) -> &'static str
    ensures { result.now ≡ verdict_text verdict }
{
    match verdict {
        Verdict::Pass => " pass length ",
        Verdict::Drop => " drop length ",
    }
}

// Puts the metadata, unless all of it is 0.
fn push_meta(out: &mut Vec<u8>, meta: Meta) -> Result<(), AllocError>
    ensures { OnOk result (out.new.items ≡ out.old.items ++ meta_text meta) }
{
    if meta.priority == 0 && meta.mark == 0 && meta.queue == 0 {
        return Ok(());
    }
    push_text(out, " priority ")?;
    push_class(out, meta.priority)?;
    push_count(out, " mark ", u64::from(meta.mark))?;
    push_count(out, " queue ", u64::from(meta.queue))
}

/// Puts how a packet ended behind what is there: its verdict, its length in bytes, and its metadata unless
/// all of them are 0.
///
/// `AllocError`: memory was refused.
#[tactic(auto, unfolding(crate::specs::Texts::end_text))]
pub fn push_end(
    out: &mut Vec<u8>,
    verdict: Verdict,
    length: u64,
    meta: Meta,
) -> Result<(), AllocError>
    ensures { OnOk result (out.new.items ≡ out.old.items ++ end_text verdict length meta) }
{
    push_count(out, verdict_text(verdict), length)?;
    push_meta(out, meta)
}
