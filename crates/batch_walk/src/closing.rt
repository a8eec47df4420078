//! The lines behind those of the packets.
ghost use Rattle.std.specs.Prelude.{◌≡◌, ◌<◌, ◌+◌, ◌^◌, ◌++◌, length, IfOk, OnOk};
ghost use Rattle.std.specs.List.{All};
ghost use Rattle.walk_texts.specs.Texts.{joined};
ghost use Rattle.batch_walk.specs.Texts.{counter_lines, closing_lines, HasCount};

use batch_run::MadeAction;
use std::alloc::{AllocError, Global};
use walk_ends::Count;
use walk_texts::{Summary, push_counter, push_summary, push_text};

// Puts a line for each action that was made, with the count of its serial.
fn push_counters(out: &mut Vec<u8>, made: &[MadeAction], counts: &[Count]) -> Result<(), AllocError>
    requires { All (HasCount (length counts.now)) made.now }
    ensures { OnOk result (out.new.items ≡ out.old.items ++ joined (counter_lines made.now counts.now)) }
{
    for action in made {
        push_counter(out, action, &counts[action.serial as usize - 1])?;
    }
    Ok(())
}

/// The lines behind those of the packets: a counter for each action that was made, the summary, `end`.
/// `counts` begins with serial 1.
pub(crate) fn closing_text(
    alloc: Global,
    made: &[MadeAction],
    counts: &[Count],
    summary: &Summary,
) -> Result<Vec<u8>, AllocError>
    requires counts { All (HasCount (length counts.now)) made.now }
    requires few { summary.now.passed + summary.now.dropped < 2 ^ 64 }
    ensures { IfOk result (λ text. text.items ≡ joined (closing_lines made.now counts.now summary.now)) }
{
    let mut out = Vec::new(alloc);
    push_counters(&mut out, made, counts)?;
    push_summary(&mut out, summary)?;
    push_text(&mut out, "end\n")?;
    Ok(out)
}
