//! Lines that name a capture.
ghost use Rattle.std.specs.Prelude.{◌≡◌, map, IfOk};
ghost use Rattle.job_lines.specs.Steps.{hook_of, capture_of};

use crate::job::CaptureName;
use crate::words::is_name;
use std::alloc::{AllocError, Global};
use tc_base::{Bytes, Hook};
use tc_words::is_text;

fn read_hook(word: &[u8]) -> Option<Hook>
    ensures { result ≡ hook_of word.now }
{
    if is_text(word, "ingress") {
        Some(Hook::Ingress)
    } else if is_text(word, "egress") {
        Some(Hook::Egress)
    } else {
        None
    }
}

fn name_capture(
    alloc: Global,
    hook: Hook,
    name: &[u8],
    out: &[u8],
) -> Result<CaptureName, AllocError>
    ensures { IfOk result (λ capture. capture ≡ record { hook = hook; name = name.now; out = out.now }) }
{
    let name = Bytes::from_vec(name.to_vec(alloc)?);
    let out = Bytes::from_vec(out.to_vec(alloc)?);
    Ok(CaptureName { hook, name, out })
}

// The capture of a line.
pub(crate) fn read_capture(
    alloc: Global,
    words: &[&[u8]],
) -> Result<Option<CaptureName>, AllocError>
    ensures { IfOk result (λ capture. capture ≡ capture_of (map (λ word. word.now) words.now)) }
{
    let [word, hook, name, out] = words else {
        return Ok(None);
    };
    if !is_text(word, "capture") || !is_name(name) || !is_name(out) {
        return Ok(None);
    }
    match read_hook(hook) {
        Some(hook) => Ok(Some(name_capture(alloc, hook, name, out)?)),
        None => Ok(None),
    }
}
