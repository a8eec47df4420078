//! What an edit did, as a text.
ghost use Rattle.std.specs.Prelude.{◌≡◌, ◌++◌, codes, OnOk};
ghost use Rattle.std.specs.List.{flat_map};
ghost use Rattle.walk_texts.specs.Texts.{counted};
ghost use Rattle.run_report.specs.EventTexts.{serials_text, filter_name, filter_text, action_made_text};
ghost use Rattle.run_report.specs.EventTexts.{done_text};

use filter_state::Done;
use line_texts::{push_handle, push_number};
use std::alloc::AllocError;
use walk_texts::{push_count, push_text};

fn push_other_serials(out: &mut Vec<u8>, serials: &[u32]) -> Result<(), AllocError>
    ensures { OnOk result (out.new.items
        ≡ out.old.items ++ flat_map (λ serial. counted (codes ",") serial) serials.now) }
{
    for serial in serials {
        push_count(out, ",", u64::from(*serial))?;
    }
    Ok(())
}

// Puts serials with commas between, or `none`.
fn push_serials(out: &mut Vec<u8>, serials: &[u32]) -> Result<(), AllocError>
    ensures { OnOk result (out.new.items ≡ out.old.items ++ serials_text serials.now) }
{
    let Some((first, others)) = serials.split_first() else {
        return push_text(out, "none");
    };
    push_number(out, u64::from(*first))?;
    push_other_serials(out, others)
}

#[tactic(auto, unfolding(crate::specs::EventTexts::filter_name))]
fn push_filter_name(out: &mut Vec<u8>, pref: u32, handle: u32) -> Result<(), AllocError>
    ensures { OnOk result (out.new.items ≡ out.old.items ++ filter_name pref handle) }
{
    push_count(out, "filter pref ", u64::from(pref))?;
    push_text(out, " handle ")?;
    push_handle(out, handle)
}

#[tactic(auto, unfolding(crate::specs::EventTexts::filter_text))]
fn push_filter(out: &mut Vec<u8>, pref: u32, handle: u32, serials: &[u32]) -> Result<(), AllocError>
    ensures { OnOk result (out.new.items ≡ out.old.items ++ filter_text pref handle serials.now) }
{
    push_filter_name(out, pref, handle)?;
    push_text(out, " actions ")?;
    push_serials(out, serials)
}

#[tactic(auto, unfolding(crate::specs::EventTexts::action_made_text))]
fn push_action_made(out: &mut Vec<u8>, index: u32, serial: u32) -> Result<(), AllocError>
    ensures { OnOk result (out.new.items ≡ out.old.items ++ action_made_text index serial) }
{
    push_count(out, "action index ", u64::from(index))?;
    push_count(out, " serial ", u64::from(serial))
}

/// Puts what an edit did.
pub(crate) fn push_done(out: &mut Vec<u8>, done: &Done) -> Result<(), AllocError>
    ensures { OnOk result (out.new.items ≡ out.old.items ++ done_text done.now) }
{
    match done {
        Done::Hooked => push_text(out, "hooked"),
        Done::Unhooked => push_text(out, "unhooked"),
        Done::Filter {
            pref,
            handle,
            serials,
        } => push_filter(out, *pref, *handle, serials.as_slice()),
        Done::FilterGone => push_text(out, "filter gone"),
        Done::TableGone => push_text(out, "table gone"),
        Done::ActionMade { index, serial } => push_action_made(out, *index, *serial),
        Done::ActionChanged => push_text(out, "action changed"),
        Done::ActionGone => push_text(out, "action gone"),
    }
}
