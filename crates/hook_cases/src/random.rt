//! Random edits of a hook, beside plain lists.

use crate::dice::Dice;
use crate::editor::{Editor, new_hook};
use crate::lines::{Line, step};
use crate::random_lines::random_line;
use crate::trouble::Trouble;
use desk_needs::Pool;
use filter_lists::{Done, FilterTable, Lists};
use filter_state::Refusal;
use pin_store::Scan;
use shared_hook::{ApplyFault, Desk};
use std::alloc::Global;
use std::test::Fail;
use tc_base::Hook;

// Whether two edits did the same.
fn is_same_done(one: &Done, other: &Done) -> bool {
    match (one, other) {
        (Done::Hooked, Done::Hooked)
        | (Done::Unhooked, Done::Unhooked)
        | (Done::FilterGone, Done::FilterGone)
        | (Done::TableGone, Done::TableGone)
        | (Done::ActionChanged, Done::ActionChanged)
        | (Done::ActionGone, Done::ActionGone) => true,
        (
            Done::Filter {
                pref,
                handle,
                serials,
            },
            Done::Filter {
                pref: its_pref,
                handle: its_handle,
                serials: its_serials,
            },
        ) => {
            pref == its_pref && handle == its_handle && serials.as_slice() == its_serials.as_slice()
        }
        (
            Done::ActionMade { index, serial },
            Done::ActionMade {
                index: its_index,
                serial: its_serial,
            },
        ) => index == its_index && serial == its_serial,
        _ => false,
    }
}

/// Whether a desk answers as plain lists do.
pub(crate) fn is_alike(answer: &Result<Done, ApplyFault>, plain: &Result<Done, Refusal>) -> bool {
    match (answer, plain) {
        (Ok(done), Ok(said)) => is_same_done(done, said),
        (Err(ApplyFault::Refused(refusal)), Err(said)) => refusal == said,
        _ => false,
    }
}

// How many filters, and how many masks, some tables have.
fn count_in(tables: &[FilterTable]) -> (u32, u32) {
    let (mut filters, mut masks) = (0u32, 0u32);
    for table in tables {
        for mask in table.masks.as_slice() {
            masks = masks.saturating_add(1);
            let count = u32::try_from(mask.filters().len()).unwrap_or(u32::MAX);
            filters = filters.saturating_add(count);
        }
    }
    (filters, masks)
}

/// How many filters, masks and live actions there are.
pub(crate) fn in_use(lists: &Lists) -> (u32, u32, u32) {
    let (ingress, its_masks) = count_in(lists.tables(Hook::Ingress));
    let (egress, other_masks) = count_in(lists.tables(Hook::Egress));
    (
        ingress.saturating_add(egress),
        its_masks.saturating_add(other_masks),
        lists.actions().entries().len() as u32,
    )
}

// How many of a pool are neither free nor on the way to be.
fn rest(desk: &Desk, pool: Pool, all: u32) -> u32 {
    all.wrapping_sub(desk.free(pool))
        .wrapping_sub(desk.retired(pool))
}

/// Whether what is free, what left and what the plain lists have in use are all that there are.
pub(crate) fn adds_up(desk: &Desk, lists: &Lists) -> bool {
    let (filters, masks, actions) = in_use(lists);
    rest(desk, Pool::MaskRoots, 8_192) == masks
        && rest(desk, Pool::ActionRoots, 2_048) == actions
        && rest(desk, Pool::Blocks, 16_384).wrapping_sub(filters) == masks.wrapping_add(actions)
}

// Applies a random edit, and says whether the plain lists answer the same.
fn one_agrees(
    alloc: Global,
    dice: &mut Dice,
    editor: &mut Editor<'_>,
    lists: &mut Lists,
) -> Result<bool, Trouble> {
    let text = random_line(alloc, dice)?;
    let line = Line::read(alloc, text.as_bytes())?;
    let answer = editor.step(&line)?;
    let plain = step(lists, &line)?;
    Ok(is_alike(&answer, &plain) && adds_up(&editor.desk, lists))
}

// Tidies, and says whether nothing is on its way then.
fn is_quiet(editor: &mut Editor<'_>, lists: &Lists) -> Result<bool, Trouble> {
    let scan = editor.tidy()?;
    Ok(
        scan == Scan::Quiet
            && editor.desk.retired(Pool::Blocks) == 0
            && adds_up(&editor.desk, lists),
    )
}

// Applies ten random edits, tidies at times, and says whether all is as with plain lists.
fn ten_agree(
    alloc: Global,
    dice: &mut Dice,
    editor: &mut Editor<'_>,
    lists: &mut Lists,
) -> Result<bool, Trouble> {
    let mut agree = true;
    for _ in 0..10 {
        let agrees = one_agrees(alloc, dice, editor, lists)?;
        agree = agree && agrees;
    }
    if dice.below(5) == 0 {
        let is_quiet = is_quiet(editor, lists)?;
        agree = agree && is_quiet;
    }
    Ok(agree)
}

// Whether all of many random edits agree, and how many were accepted.
fn all_agree(alloc: Global, editor: &mut Editor<'_>, tens: u32) -> Result<(bool, u32), Trouble> {
    let mut dice = Dice { seed: 2026 };
    let mut lists = Lists::new(alloc);
    let mut agree = true;
    for _ in 0..tens {
        let agrees = ten_agree(alloc, &mut dice, editor, &mut lists)?;
        agree = agree && agrees;
    }
    Ok((agree, editor.desk.journal_len()))
}

fn edit_alone(alloc: Global, tens: u32) -> Result<(bool, u32), Trouble> {
    let (store, desk, reader) = new_hook(alloc)?;
    let mut editor = Editor {
        store: &store,
        desk,
    };
    let agree = all_agree(alloc, &mut editor, tens);
    drop(editor);
    drop((store, reader));
    agree
}

// Nobody is inside, so no edit is held. Of 6,000 edits many are refused, and more than 2,000 accepted.
#[test]
fn random_edits_are_those_of_plain_lists(rt: HostRuntime) -> Result<(), Fail> {
    let (agree, accepted) = edit_alone(rt.alloc(), 600)?;
    assert!(rt; agree);
    assert!(rt; accepted > 2_000);
    Ok(())
}
