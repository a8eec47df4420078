//! What is told of an action that ran.
ghost use Rattle.std.specs.Prelude.{◌≡◌, fold, OnOk, Some};
ghost use Rattle.tc_print.specs.Texts.{onto};
ghost use Rattle.trace_lines.specs.Lines.{room_words, length_words};
ghost use Rattle.trace_lines.specs.Parts.{no_room, place_words, effect_words, acted_words};

use crate::naming::Naming;
use crate::visit::Visit;
use crate::words::{push_maker, push_named, push_word};
use act_kinds::{Params, VlanOp};
use std::alloc::AllocError;
use tc_print::push_params;
use walk_steps::Stand;

/// The bytes of an Ethernet header.
const HEADER: usize = 14;

/// Whether a push found no room: of frames with a header it leaves those alone as they were.
pub(crate) fn found_no_room(params: Params, before: usize, after: usize) -> bool
    ensures { result ≡ no_room params before after }
{
    match params {
        Params::Vlan(VlanOp::Push { .. }, _) => before >= HEADER && before == after,
        _ => false,
    }
}

// `run I of M`.
fn push_place(line: &mut Vec<u8>, stand: Stand) -> Result<(), AllocError>
    ensures { OnOk result (line.new.items ≡ fold onto line.old.items (place_words stand)) }
{
    match stand {
        Stand::AtAction { position, length } => {
            push_named(line, "run", u64::from(position))?;
            push_named(line, "of", u64::from(length))
        }
        _ => Ok(()),
    }
}

fn push_room(line: &mut Vec<u8>, none: bool) -> Result<(), AllocError>
    ensures { OnOk result (line.new.items ≡ fold onto line.old.items (room_words none)) }
{
    if none {
        push_word(line, "no")?;
        push_word(line, "room")
    } else {
        Ok(())
    }
}

fn push_length(line: &mut Vec<u8>, before: usize, after: usize) -> Result<(), AllocError>
    ensures { OnOk result (line.new.items ≡ fold onto line.old.items (length_words before after)) }
{
    if before == after {
        Ok(())
    } else {
        push_named(line, "length", after as u64)
    }
}

// What came of an action, where that isn't told by its parameters.
fn push_effect(
    line: &mut Vec<u8>,
    params: Params,
    before: usize,
    after: usize,
) -> Result<(), AllocError>
    ensures { OnOk result (line.new.items ≡ fold onto line.old.items (effect_words params before after)) }
{
    push_room(line, found_no_room(params, before, after))?;
    push_length(line, before, after)
}

/// An action that ran: its place in the list, its parameters, what came of it, and who made it.
pub(crate) fn push_run<N: Naming>(
    line: &mut Vec<u8>,
    names: &N,
    visit: &Visit<'_>,
    serial: u32,
    params: Params,
) -> Result<(), AllocError>
    ensures { OnOk result (line.new.items
        ≡ fold onto line.old.items (acted_words (N.names names.now) visit.now.before visit.now.point
        visit.now.length serial params)) }
{
    push_place(line, visit.before.stand)?;
    push_named(line, "serial", u64::from(serial))?;
    push_params(line, params)?;
    push_named(line, "index", u64::from(names.index(serial)))?;
    push_effect(line, params, visit.before.length, visit.length)?;
    push_maker(line, names.action(visit.point, serial))
}
