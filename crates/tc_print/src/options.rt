//! The head of a line on a hook: the hook, and the table that a filter stands in.
ghost use Rattle.std.specs.Prelude.{◌≡◌, [], ◌∷◌, ◌++◌, Some, fold, codes, decimal, OnOk};
ghost use Rattle.tc_print.specs.ActionWords.{number_words};
ghost use Rattle.tc_print.specs.EditWords.{hook_text, hook_words, protocol_words, handle_words, option_words};
ghost use Rattle.tc_print.specs.Texts.{onto};

use crate::texts::{push_handle_word, push_named, push_protocol_word, push_word};
use std::alloc::AllocError;
use tc_base::{Hook, Proto};

fn hook_name(hook: Hook) -> &'static str
    ensures { result.now ≡ hook_text hook }
{
    match hook {
        Hook::Ingress => "ingress",
        Hook::Egress => "egress",
    }
}

/// Puts the first words of a line on a hook: its verb, the device and the hook.
///
/// `AllocError`: memory was refused.
pub fn push_hook(out: &mut Vec<u8>, verb: &str, hook: Hook) -> Result<(), AllocError>
    ensures { OnOk result (out.new.items ≡ fold onto out.old.items (hook_words verb.now hook)) }
{
    push_word(out, "filter")?;
    push_word(out, verb)?;
    push_word(out, "dev")?;
    push_word(out, "eth0")?;
    push_word(out, hook_name(hook))
}

fn push_one_protocol(out: &mut Vec<u8>, protocol: Proto) -> Result<(), AllocError>
    ensures { OnOk result (out.new.items ≡ fold onto out.old.items (protocol_words (Some protocol))) }
{
    push_word(out, "protocol")?;
    push_protocol_word(out, protocol)
}

fn push_protocol_option(out: &mut Vec<u8>, protocol: Option<Proto>) -> Result<(), AllocError>
    ensures { OnOk result (out.new.items ≡ fold onto out.old.items (protocol_words protocol)) }
{
    match protocol {
        Some(protocol) => push_one_protocol(out, protocol),
        None => Ok(()),
    }
}

fn push_pref(out: &mut Vec<u8>, pref: Option<u32>) -> Result<(), AllocError>
    ensures { OnOk result (out.new.items ≡ fold onto out.old.items (number_words (codes "pref") pref)) }
{
    match pref {
        Some(pref) => push_named(out, "pref", u64::from(pref)),
        None => Ok(()),
    }
}

fn push_one_handle(out: &mut Vec<u8>, handle: u32) -> Result<(), AllocError>
    ensures { OnOk result (out.new.items ≡ fold onto out.old.items (handle_words (Some handle))) }
{
    push_word(out, "handle")?;
    push_handle_word(out, handle)
}

fn push_handle_option(out: &mut Vec<u8>, handle: Option<u32>) -> Result<(), AllocError>
    ensures { OnOk result (out.new.items ≡ fold onto out.old.items (handle_words handle)) }
{
    match handle {
        Some(handle) => push_one_handle(out, handle),
        None => Ok(()),
    }
}

/// Puts what tells a table behind a line, and the handle of one filter in it (tc(8)).
///
/// `AllocError`: memory was refused.
#[tactic(auto, using(crate::proofs::Grown::onto_append))]
pub fn push_options(
    out: &mut Vec<u8>,
    protocol: Option<Proto>,
    pref: Option<u32>,
    chain: u32,
    handle: Option<u32>,
) -> Result<(), AllocError>
    ensures { OnOk result (out.new.items
        ≡ fold onto out.old.items (option_words protocol pref chain handle)) }
{
    push_protocol_option(out, protocol)?;
    push_pref(out, pref)?;
    push_named(out, "chain", u64::from(chain))?;
    push_handle_option(out, handle)
}
