//! Lines of a batch, read, and what plain lists answer to them.

use crate::trouble::Trouble;
use filter_lists::{Done, Lists};
use filter_state::{Edit, Refusal};
use std::alloc::Global;
use std::marker::Model;
use tc_batch::line;

/// The edit of a line.
#[derive(Drop)]
pub(crate) struct Line {
    pub(crate) edit: Edit,
}

impl Model for Line {
    ghost use Rattle.filter_state.specs.declared.edit.Edit.{Edit};
    ghost use Rattle.filter_state.specs.Lines.{IsLine};

    ghost Value = { Edit };

    ghost view = { λ l. l.edit };

    ghost invariant = { λ l. IsLine l.edit };
}

impl Line {
    /// Reads a line.
    pub(crate) fn read(alloc: Global, text: &[u8]) -> Result<Line, Trouble> {
        Ok(Line {
            edit: line(alloc, text)?,
        })
    }
}

/// What lists answer to an edit.
pub(crate) fn step(lists: &mut Lists, line: &Line) -> Result<Result<Done, Refusal>, Trouble> {
    if !lists.may_step() {
        return Err(Trouble::TooFar);
    }
    Ok(lists.step(&line.edit))
}
