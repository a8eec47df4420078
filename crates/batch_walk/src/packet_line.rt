//! The line of a packet.
ghost use Rattle.std.specs.Prelude.{◌≡◌, ◌++◌, OnOk};
ghost use Rattle.batch_walk.specs.Texts.{packet_line};

use capture_walk::PacketEnd;
use std::alloc::AllocError;
use walk_texts::{push_count, push_end, push_text};

/// Puts the line of a packet behind a text: its number, and how it ended.
///
/// `AllocError`: memory was refused.
pub fn push_packet_line(out: &mut Vec<u8>, number: u64, end: PacketEnd) -> Result<(), AllocError>
    ensures { OnOk result (out.new.items ≡ out.old.items ++ packet_line number end) }
{
    push_count(out, "packet ", number)?;
    push_end(out, end.verdict, u64::from(end.length), end.meta)?;
    push_text(out, "\n")
}
