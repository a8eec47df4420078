//! What is told before a look-up: the table, and the frame's fields.
ghost use Rattle.std.specs.Prelude.{◌≡◌, ◌++◌, fold, Some, OnOk};
ghost use Rattle.flow_fields.specs.Values.{values_of};
ghost use Rattle.tc_print.specs.Texts.{onto};
ghost use Rattle.trace_lines.specs.Lines.{joined};
ghost use Rattle.trace_lines.specs.Parts.{named_table_words, table_lines_at, frame_words_of, frame_lines_of};
ghost use Rattle.trace_lines.specs.Parts.{frame_lines_at, seen_at};

use crate::kept_frames::push_kept_frame;
use crate::keys::whole_mask;
use crate::page::{Page, begin_line, put_line};
use crate::seen_frame::SeenFrame;
use crate::told::Told;
use crate::words::{push_named, push_word};
use flow_fields::Key;
use std::alloc::AllocError;
use tc_base::Proto;
use tc_print::{push_fields, push_protocol_word};
use walk_steps::Stand;

fn push_table(line: &mut Vec<u8>, chain: u32, pref: u32, protocol: Proto) -> Result<(), AllocError>
    ensures { OnOk result (line.new.items
        ≡ fold onto line.old.items (named_table_words chain pref protocol)) }
{
    push_word(line, "table")?;
    push_named(line, "chain", u64::from(chain))?;
    push_named(line, "pref", u64::from(pref))?;
    push_word(line, "protocol")?;
    push_protocol_word(line, protocol)
}

/// Tells the table, where its first mask is looked at.
pub(crate) fn tell_table(page: &mut Page, told: Told, stand: Stand) -> Result<(), AllocError>
    ensures { OnOk result (page.new ≡ page.old ++ joined (table_lines_at told stand)) }
{
    match stand {
        Stand::AtMask {
            chain,
            pref,
            protocol,
            is_first: true,
        } => {
            begin_line(&mut page.line, told)?;
            push_table(&mut page.line, chain, pref, protocol)?;
            put_line(&mut page.text, &page.line)
        }
        _ => Ok(()),
    }
}

/// Puts the words that tell a frame's fields behind a line, each with a space before it unless that is empty.
pub(crate) fn push_frame(line: &mut Vec<u8>, ether: u16, key: &Key<14>) -> Result<(), AllocError>
    ensures { OnOk result (line.new.items
        ≡ fold onto line.old.items (frame_words_of ether (values_of key.now.words))) }
{
    push_word(line, "fields")?;
    push_word(line, "protocol")?;
    push_protocol_word(line, Proto::Ether(ether))?;
    push_fields(line, key, &whole_mask(key))
}

// Tells the fields of the frame of a look-up, unless they are those of the look-up before.
fn tell_frame(
    page: &mut Page,
    told: Told,
    seen: &mut SeenFrame,
    ether: u16,
    key: &Key<14>,
) -> Result<(), AllocError>
    ensures lines { OnOk result (page.new
        ≡ page.old ++ joined (frame_lines_of told seen.old ether (values_of key.now.words))) }
    ensures seen { OnOk result (seen.new ≡ Some (ether, values_of key.now.words)) }
{
    if seen.is(ether, key) {
        return Ok(());
    }
    seen.set(ether, key);
    begin_line(&mut page.line, told)?;
    push_kept_frame(&mut page.line, &mut page.kept, ether, key)?;
    put_line(&mut page.text, &page.line)
}

/// Tells the fields of a frame before a look-up, unless they are those of the look-up before.
pub(crate) fn tell_fields(
    page: &mut Page,
    told: Told,
    stand: Stand,
    seen: &mut SeenFrame,
    ether: u16,
    key: &Key<14>,
) -> Result<(), AllocError>
    ensures lines { OnOk result (page.new
        ≡ page.old ++ joined (frame_lines_at told seen.old stand ether (values_of key.now.words))) }
    ensures seen { OnOk result (seen.new ≡ seen_at seen.old stand ether (values_of key.now.words)) }
{
    match stand {
        Stand::AtMask { .. } => tell_frame(page, told, seen, ether, key),
        _ => Ok(()),
    }
}
