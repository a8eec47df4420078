//! Texts and numbers at the end of a line.
ghost use Rattle.std.specs.Prelude.{◌≡◌, ◌++◌, OnOk};
ghost use Rattle.walk_texts.specs.Texts.{counted};

use line_texts::push_number;
use std::alloc::AllocError;

/// Puts a text. `AllocError`: memory was refused.
pub fn push_text(out: &mut Vec<u8>, text: &str) -> Result<(), AllocError>
    ensures { OnOk result (out.new.items ≡ out.old.items ++ text.now) }
{
    out.extend_from_slice(text.as_bytes())
}

/// Puts a label, and a number in decimal behind it. `AllocError`: memory was refused.
#[tactic(auto, unfolding(crate::specs::Texts::counted))]
pub fn push_count(out: &mut Vec<u8>, label: &str, number: u64) -> Result<(), AllocError>
    ensures { OnOk result (out.new.items ≡ out.old.items ++ counted label.now number) }
{
    push_text(out, label)?;
    push_number(out, number)
}
