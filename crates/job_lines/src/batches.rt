//! Lines that name a batch.
ghost use Rattle.std.specs.Prelude.{◌≡◌, map, IfOk, Some, None};
ghost use Rattle.job_lines.specs.Steps.{force_of, batch_above, batch_of};

use crate::job::BatchName;
use crate::words::is_name;
use std::alloc::{AllocError, Global};
use tc_base::Bytes;
use tc_words::{is_text, read_decimal};

// Whether a batch is forced, by the words behind its name. `None` where nothing may stand there.
fn read_force(words: &[&[u8]]) -> Option<bool>
    ensures { result ≡ force_of (map (λ word. word.now) words.now) }
{
    match words {
        [] => Some(false),
        [word] if is_text(word, "force") => Some(true),
        _ => None,
    }
}

fn name_batch(
    alloc: Global,
    name: &[u8],
    control: u32,
    force: bool,
) -> Result<BatchName, AllocError>
    ensures { IfOk result (λ batch. batch ≡ record { control = control; name = name.now; force = force }) }
{
    let name = Bytes::from_vec(name.to_vec(alloc)?);
    Ok(BatchName {
        control,
        name,
        force,
    })
}

// The batch of a line, of one of so many controls, above the last one.
pub(crate) fn read_batch(
    alloc: Global,
    words: &[&[u8]],
    controls: u32,
    last: u32,
) -> Result<Option<BatchName>, AllocError>
    ensures { IfOk result (λ batch. batch ≡ batch_of controls last (map (λ word. word.now) words.now)) }
{
    let [word, number, name, more @ ..] = words else {
        return Ok(None);
    };
    if !is_text(word, "batch") || !is_name(name) {
        return Ok(None);
    }
    match (read_decimal(number, controls), read_force(more)) {
        (Some(control), Some(force)) if last < control => {
            Ok(Some(name_batch(alloc, name, control, force)?))
        }
        _ => Ok(None),
    }
}
