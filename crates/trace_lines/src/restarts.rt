//! What is told behind a visit: that the walk began anew, or that it is spent.
ghost use Rattle.std.specs.Prelude.{◌≡◌, ◌++◌, fold, OnOk};
ghost use Rattle.tc_print.specs.Texts.{onto};
ghost use Rattle.trace_lines.specs.Lines.{joined, restart_chain, restart_words, restart_lines};
ghost use Rattle.trace_lines.specs.Parts.{control_in, chain_in, is_over, spent_lines_at};

use crate::page::{Page, begin_line, put_line};
use crate::runs::found_no_room;
use crate::told::Told;
use crate::visit::Visit;
use crate::words::{push_named, push_word};
use act_kinds::{Control, Params};
use point_walks::Answered;
use std::alloc::AllocError;
use walk_rules::VISITS_MAX;
use walk_steps::Stand;

// The control of parameters.
fn control(params: Params) -> Control
    ensures { result ≡ control_in params }
{
    match params {
        Params::Gact(control) => control,
        Params::Vlan(_, control) => control,
        Params::Skbedit { control, .. } => control,
    }
}

// The chain from which a control begins the walk anew.
fn restart_chain(control: Control) -> Option<u32>
    ensures { result ≡ restart_chain control }
{
    match control {
        Control::Reclassify => Some(0),
        Control::Goto(chain) => Some(chain),
        _ => None,
    }
}

/// The chain from which a visit would have the walk begin anew. A push that found no room doesn't.
pub(crate) fn chain_after(visit: &Visit<'_>) -> Option<u32>
    ensures { result ≡ chain_in visit.now.before.length visit.now.length visit.now.answered }
{
    match visit.answered {
        Answered::Acted { params, .. } => {
            if found_no_room(params, visit.before.length, visit.length) {
                None
            } else {
                restart_chain(control(params))
            }
        }
        _ => None,
    }
}

fn push_restart(line: &mut Vec<u8>, restarts: u32, chain: u32) -> Result<(), AllocError>
    ensures { OnOk result (line.new.items ≡ fold onto line.old.items (restart_words restarts chain)) }
{
    if restarts == 0 {
        return push_word(line, "spent");
    }
    push_word(line, "restart")?;
    push_named(line, "chain", u64::from(chain))?;
    push_named(line, "left", u64::from(restarts - 1))
}

/// Tells that the walk begins anew at a chain, or that no restart was left for that.
pub(crate) fn tell_restart(
    page: &mut Page,
    told: Told,
    restarts: u32,
    chain: Option<u32>,
) -> Result<(), AllocError>
    ensures { OnOk result (page.new ≡ page.old ++ joined (restart_lines told restarts chain)) }
{
    match chain {
        Some(chain) => {
            begin_line(&mut page.line, told)?;
            push_restart(&mut page.line, restarts, chain)?;
            put_line(&mut page.text, &page.line)
        }
        None => Ok(()),
    }
}

// Whether a walk that stands there is at its end.
fn is_over(stand: Stand) -> bool
    ensures { result ≡ is_over stand }
{
    matches!(stand, Stand::Over(_))
}

/// Tells that the walk needs a visit and none is left, of so many that were made.
pub(crate) fn tell_spent(
    page: &mut Page,
    told: Told,
    visits: u64,
    stand: Stand,
) -> Result<(), AllocError>
    ensures { OnOk result (page.new ≡ page.old ++ joined (spent_lines_at told visits stand)) }
{
    if visits != VISITS_MAX as u64 || is_over(stand) {
        return Ok(());
    }
    begin_line(&mut page.line, told)?;
    push_word(&mut page.line, "spent")?;
    put_line(&mut page.text, &page.line)
}
