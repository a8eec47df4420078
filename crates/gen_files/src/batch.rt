//! The batch.
ghost use Rattle.std.specs.Prelude.{◌≡◌, ◌++◌, IfOk, OnOk};
ghost use Rattle.gen_files.specs.Generated.{address_text, action_text, filter_line, batch_text};

use line_texts::push_number;
use std::alloc::{AllocError, Global};
use tc_base::NoMemory;

fn push_text(out: &mut Vec<u8>, text: &str) -> Result<(), AllocError>
    ensures { OnOk result (out.new.items ≡ out.old.items ++ text.now) }
{
    out.extend_from_slice(text.as_bytes())
}

fn push_address(out: &mut Vec<u8>, index: u64) -> Result<(), AllocError>
    ensures { OnOk result (out.new.items ≡ out.old.items ++ address_text index) }
{
    push_text(out, "10.0.")?;
    push_number(out, index / 256)?;
    push_text(out, ".")?;
    push_number(out, index % 256)
}

fn action_text(index: u64) -> &'static str
    ensures { result.now ≡ action_text index }
{
    if index % 4 == 3 {
        " action drop index 1\n"
    } else {
        " action ok index 2\n"
    }
}

fn push_filter(out: &mut Vec<u8>, index: u64) -> Result<(), AllocError>
    ensures { OnOk result (out.new.items ≡ out.old.items ++ filter_line index) }
{
    push_text(
        out,
        "filter add dev eth0 ingress protocol ip pref 10 flower dst_ip ",
    )?;
    push_address(out, index)?;
    push_text(out, action_text(index))
}

/// The lines of the batch: the hook, and so many filters.
///
/// `NoMemory`: memory was refused.
pub fn gen_batch(alloc: Global, filters: u32) -> Result<Vec<u8>, NoMemory>
    ensures { IfOk result (λ bytes. bytes.items ≡ batch_text filters) }
{
    let mut out = Vec::new(alloc);
    push_text(&mut out, "qdisc add dev eth0 clsact\n")?;
    for index in 0..u64::from(filters) {
        push_filter(&mut out, index)?;
    }
    Ok(out)
}
