//! The line that tells how often a filter decided.
ghost use Rattle.std.specs.Prelude.{◌≡◌, ◌++◌, fold, OnOk};
ghost use Rattle.tc_print.specs.Texts.{onto};
ghost use Rattle.journal_names.specs.Decided.{place_words, gone_words, decided_words, decided_line};

use filter_origins::Brought;
use std::alloc::AllocError;
use tc_base::Point;
use tc_print::{push_handle_word, push_named, push_protocol_word, push_word};
use trace_lines::{push_by, push_hook_word};

// Puts where a filter stands: its hook, its table and its handle.
fn push_place(line: &mut Vec<u8>, brought: &Brought) -> Result<(), AllocError>
    ensures { OnOk result (line.new.items ≡ fold onto line.old.items (place_words brought.now)) }
{
    push_hook_word(line, brought.hook)?;
    push_named(line, "chain", u64::from(brought.chain))?;
    push_named(line, "pref", u64::from(brought.pref))?;
    push_word(line, "protocol")?;
    push_protocol_word(line, brought.protocol)?;
    push_word(line, "handle")?;
    push_handle_word(line, brought.handle)
}

// Puts the edit that took a filter, where one did.
fn push_gone(line: &mut Vec<u8>, gone: Option<Point>) -> Result<(), AllocError>
    ensures { OnOk result (line.new.items ≡ fold onto line.old.items (gone_words gone)) }
{
    match gone {
        Some(edit) => push_named(line, "gone", u64::from(edit)),
        None => Ok(()),
    }
}

// Puts the words of the line.
fn push_words(line: &mut Vec<u8>, times: u64, brought: &Brought) -> Result<(), AllocError>
    ensures { OnOk result (line.new.items ≡ fold onto line.old.items (decided_words times brought.now)) }
{
    push_named(line, "decided", times)?;
    push_by(line, brought.by)?;
    push_place(line, brought)?;
    push_gone(line, brought.gone)
}

/// Puts the line of a filter that an edit brought behind a text: how often it decided, the edit, and where the
/// filter stands or stood. The line is made in the room, whatever that holds.
///
/// `AllocError`: memory was refused.
pub fn push_decided(
    text: &mut Vec<u8>,
    room: &mut Vec<u8>,
    times: u64,
    brought: &Brought,
) -> Result<(), AllocError>
    ensures { OnOk result (text.new.items ≡ text.old.items ++ decided_line times brought.now) }
{
    room.clear();
    push_words(room, times, brought)?;
    room.push(b'\n')?;
    text.extend_from_slice(room)
}
