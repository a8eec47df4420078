//! The job.
ghost use Rattle.std.specs.Prelude.{◌≡◌, ◌++◌, IfOk, OnOk};
ghost use Rattle.gen_files.specs.Generated.{job_text};

use std::alloc::{AllocError, Global};
use tc_base::NoMemory;

// Puts a text, and the front of the files' names behind it.
fn push_front(out: &mut Vec<u8>, text: &str, front: &str) -> Result<(), AllocError>
    ensures { OnOk result (out.new.items ≡ out.old.items ++ text.now ++ front.now) }
{
    out.extend_from_slice(text.as_bytes())?;
    out.extend_from_slice(front.as_bytes())
}

/// The lines of the job: the batch in one round, and the capture in the next.
///
/// `NoMemory`: memory was refused.
pub fn gen_job(alloc: Global, front: &str) -> Result<Vec<u8>, NoMemory>
    ensures { IfOk result (λ bytes. bytes.items ≡ job_text front.now) }
{
    let mut out = Vec::new(alloc);
    push_front(
        &mut out,
        "clsact job 1\nworkers 4\ncontrols 1\nround\nbatch 1 ",
        front,
    )?;
    push_front(&mut out, ".tc\nround\ncapture ingress ", front)?;
    push_front(&mut out, ".pcap ", front)?;
    out.extend_from_slice(".out.pcap\nend\n".as_bytes())?;
    Ok(out)
}
