//! The line that tells why a batch stopped.
//!
//! It grows at the end of a text that may hold lines, so its first word has no space before it and each other
//! word has one.
ghost use Rattle.std.specs.Prelude.{◌≡◌, [], ◌∷◌, ◌++◌, codes, decimal, OnOk};
ghost use Rattle.std.specs.List.{join_with_byte};
ghost use Rattle.line_texts.specs.Texts.{handle_text, protocol_text};
ghost use Rattle.tc_report.specs.Refusals.{refusal_name, refusal_fields, refusal_words, syntax_words};
ghost use Rattle.tc_report.specs.Refusals.{place_words, refused_line};
ghost use Rattle.tc_report.specs.Steps.{spaced_words};

use filter_state::Refusal;
use line_texts::{push_handle, push_number, push_protocol};
use std::alloc::AllocError;
use tc_base::{NoMemory, Proto};
use tc_batch::kind_name;

fn push_spaced(out: &mut Vec<u8>, word: &str) -> Result<(), AllocError>
    ensures { OnOk result (out.new.items ≡ out.old.items ++ (32 ∷ word.now)) }
{
    out.push(b' ')?;
    out.extend_from_slice(word.as_bytes())
}

fn push_decimal(out: &mut Vec<u8>, number: u64) -> Result<(), AllocError>
    ensures { OnOk result (out.new.items ≡ out.old.items ++ (32 ∷ decimal number)) }
{
    out.push(b' ')?;
    push_number(out, number)
}

fn push_spaced_protocol(out: &mut Vec<u8>, protocol: Proto) -> Result<(), AllocError>
    ensures { OnOk result (out.new.items ≡ out.old.items ++ (32 ∷ protocol_text protocol)) }
{
    out.push(b' ')?;
    push_protocol(out, protocol)
}

fn push_spaced_handle(out: &mut Vec<u8>, handle: u32) -> Result<(), AllocError>
    ensures { OnOk result (out.new.items ≡ out.old.items ++ (32 ∷ handle_text handle)) }
{
    out.push(b' ')?;
    push_handle(out, handle)
}

// A word and its number.
fn push_numbered(out: &mut Vec<u8>, word: &str, number: u64) -> Result<(), AllocError>
    ensures { OnOk result (out.new.items ≡ out.old.items ++ spaced_words (word.now ∷ decimal number ∷ [])) }
{
    push_spaced(out, word)?;
    push_decimal(out, number)
}

fn refusal_name(refusal: &Refusal) -> &'static str
    ensures { result.now ≡ refusal_name refusal.now }
{
    match refusal {
        Refusal::NoHook => "NoHook",
        Refusal::HookExists => "HookExists",
        Refusal::HookInUse => "HookInUse",
        Refusal::NoPref => "NoPref",
        Refusal::ProtocolClash { .. } => "ProtocolClash",
        Refusal::NoSuchTable => "NoSuchTable",
        Refusal::NoSuchFilter => "NoSuchFilter",
        Refusal::HandleTaken => "HandleTaken",
        Refusal::Exists { .. } => "Exists",
        Refusal::NoSuchAction { .. } => "NoSuchAction",
        Refusal::ActionExists => "ActionExists",
        Refusal::ActionBound { .. } => "ActionBound",
        Refusal::TablesFull => "TablesFull",
        Refusal::MasksFull => "MasksFull",
        Refusal::FiltersFull => "FiltersFull",
        Refusal::ActionsFull => "ActionsFull",
        Refusal::CountersFull => "CountersFull",
        Refusal::NoMemory(_) => "NoMemory",
    }
}

// What a refusal says besides its name.
fn push_said(out: &mut Vec<u8>, refusal: &Refusal) -> Result<(), AllocError>
    ensures { OnOk result (out.new.items ≡ out.old.items ++ spaced_words (refusal_fields refusal.now)) }
{
    match *refusal {
        Refusal::ProtocolClash { protocol } => push_spaced_protocol(out, protocol),
        Refusal::Exists { handle } => push_spaced_handle(out, handle),
        Refusal::NoSuchAction { kind, index } => {
            push_numbered(out, kind_name(kind), u64::from(index))
        }
        Refusal::ActionBound { binds } => push_decimal(out, u64::from(binds)),
        _ => Ok(()),
    }
}

fn push_reason(out: &mut Vec<u8>, refusal: &Refusal) -> Result<(), AllocError>
    ensures { OnOk result (out.new.items ≡ out.old.items ++ spaced_words (refusal_words refusal.now)) }
{
    push_spaced(out, refusal_name(refusal))?;
    push_said(out, refusal)
}

fn push_place(out: &mut Vec<u8>, accepted: u32, control: u32, line: u64) -> Result<(), AllocError>
    ensures { OnOk result (out.new.items
        ≡ out.old.items ++ join_with_byte 32 (place_words accepted control line)) }
{
    out.extend_from_slice("refused".as_bytes())?;
    push_decimal(out, u64::from(accepted))?;
    push_numbered(out, "control", u64::from(control))?;
    push_numbered(out, "line", line)
}

/// Puts the line that tells of a refused edit at the end of a text: how many edits were accepted before it,
/// its control and its line there, and the refusal with what it says.
///
/// `NoMemory`: memory was refused, and a part of the line may stand at the end of the text.
pub fn push_refused(
    out: &mut Vec<u8>,
    accepted: u32,
    control: u32,
    line: u64,
    refusal: &Refusal,
) -> Result<(), NoMemory>
    ensures { OnOk result (out.new.items
        ≡ out.old.items ++ refused_line accepted control line (refusal_words refusal.now)) }
{
    push_place(out, accepted, control, line)?;
    push_reason(out, refusal)?;
    out.push(b'\n')?;
    Ok(())
}

/// Puts the line that tells of a line with no meaning at the end of a text: how many edits were accepted
/// before it, its control and its place there, and the number of the first word that doesn't fit.
///
/// `NoMemory`: memory was refused, and a part of the line may stand at the end of the text.
pub fn push_bad_line(
    out: &mut Vec<u8>,
    accepted: u32,
    control: u32,
    line: u64,
    word: u32,
) -> Result<(), NoMemory>
    ensures { OnOk result (out.new.items
        ≡ out.old.items ++ refused_line accepted control line (syntax_words word)) }
{
    push_place(out, accepted, control, line)?;
    push_numbered(out, "Syntax", u64::from(word))?;
    out.push(b'\n')?;
    Ok(())
}
