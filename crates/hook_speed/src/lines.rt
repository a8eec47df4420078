//! Lines of a batch, read, and what applies them.
ghost use Rattle.filter_state.specs.Lines.{IsLine};
ghost use Rattle.pin_store.specs.Calls.{IsSeatOf};

use filter_lists::Lists;
use filter_state::Edit;
use hook_store_law::HookStore;
use shared_hook::Desk;
use std::alloc::Global;
use std::marker::Model;
use std::test::Fail;
use tc_batch::line;

/// The edit of a line.
#[derive(Drop)]
pub(crate) struct Line {
    edit: Edit,
}

impl Model for Line {
    ghost use Rattle.filter_state.specs.declared.edit.Edit.{Edit};
    ghost use Rattle.filter_state.specs.Lines.{IsLine};

    ghost Value = { Edit };

    ghost view = { λ l. l.edit };

    ghost invariant = { λ l. IsLine l.edit };
}

impl Line {
    /// Reads a line.
    pub(crate) fn read(alloc: Global, text: &[u8]) -> Result<Line, Fail> {
        Ok(Line {
            edit: line(alloc, text)?,
        })
    }
}

// The numbers of lists and of a desk end somewhere. No test comes so far.
const TOO_FAR: &str = "the numbers are used up";

// Applies an edit to lists, which accept it.
fn step(lists: &mut Lists, edit: &Edit) -> Result<(), Fail>
    requires line { IsLine edit.now }
{
    if !lists.may_step() {
        return Err(Fail::new(TOO_FAR));
    }
    lists.step(edit)?;
    Ok(())
}

// Applies an edit to a desk, which accepts it.
fn apply(desk: &mut Desk, store: &HookStore, edit: &Edit) -> Result<(), Fail>
    requires store { IsSeatOf store.now desk.old.place }
    requires line { IsLine edit.now }
    ensures store { IsSeatOf store.now desk.new.place }
{
    if desk.epochs() >= 1 << 60 || desk.journal_len() >= 1 << 31 || !desk.lists().may_step() {
        return Err(Fail::new(TOO_FAR));
    }
    desk.try_apply(store, edit)?;
    Ok(())
}

/// Applies lines to lists.
pub(crate) fn step_all(lists: &mut Lists, lines: &[Line]) -> Result<(), Fail> {
    for line in lines {
        step(lists, &line.edit)?;
    }
    Ok(())
}

/// Applies lines to a desk.
pub(crate) fn apply_all(desk: &mut Desk, store: &HookStore, lines: &[Line]) -> Result<(), Fail>
    requires store { IsSeatOf store.now desk.old.place }
    ensures store { IsSeatOf store.now desk.new.place }
{
    for line in lines {
        apply(desk, store, &line.edit)?;
    }
    Ok(())
}
