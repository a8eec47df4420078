//! The filter that an edit has put, found in the lists behind the edit.
//!
//! Whoever keeps what was put where has to know of the filter that came its mask's serial and key, its pref
//! and handle, and its actions. The line tells the key, and the answer to the edit the numbers and actions;
//! the mask's serial is asked of the lists.
ghost use Rattle.std.specs.Prelude.{◌≡◌, ℕ, Option, Some, IfSome};
ghost use Rattle.filter_state.specs.States.{Row, State};
ghost use Rattle.filter_state.specs.Sound.{Sound};
ghost use Rattle.filter_lists.specs.Spells.{Spells};
ghost use Rattle.state_past_laws.specs.OfChanges.Among.{Has};
ghost use Rattle.state_past_laws.specs.OfChanges.Going.{line_in, Comes, IsComing};
ghost use Rattle.filter_state.specs.declared.refusal.Done.TheVariants as dones;
ghost use Rattle.state_past.specs.Told.{IsComingOf};

use crate::gone_filters::mask_serial;
use filter_lists::{Done, Edit, FilterLine, Lists};
use tc_base::Numbers;

/// A filter that was put.
#[derive(Drop)]
pub struct Coming<'a> {
    /// The serial of its mask.
    pub mask: u32,
    /// The line that put it, with its hook and chain, its mask's words and its key.
    pub line: &'a FilterLine,
    pub pref: u32,
    pub handle: u32,
    /// The serials of its actions, in order.
    pub serials: &'a Numbers,
}

/// The filter that an edit has put into the lists, where it was accepted with that answer. Nothing, where
/// the edit puts none.
pub fn coming_in<'a>(lists: &Lists, edit: &'a Edit, done: &'a Done) -> Option<Coming<'a>>
    ensures row { (t : State) → Spells lists.now t → Sound t → (come : Option Row)
        → Comes (line_in edit.now) done.now come → ((row : Row) → come ≡ Some row → Has row t.rows)
        → IsComingOf come result }
    ensures line { IfSome result (λ coming. line_in edit.now ≡ Some coming.line.now) }
{
    let line = match edit {
        Edit::FilterAdd(line) => line,
        Edit::FilterReplace(line) => line,
        _ => return None,
    };
    match done {
        Done::Filter {
            pref,
            handle,
            serials,
        } => coming_of(lists, line, *pref, *handle, serials),
        _ => None,
    }
}

fn coming_of<'a>(
    lists: &Lists,
    line: &'a FilterLine,
    pref: u32,
    handle: u32,
    serials: &'a Numbers,
) -> Option<Coming<'a>>
    ensures row { (t : State) → Spells lists.now t → Sound t → (row : Row)
        → IsComing line.now (dones.Filter pref handle serials.now) row → Has row t.rows
        → IsComingOf (Some row) result }
    ensures line { IfSome result (λ coming. coming.line.now ≡ line.now) }
{
    let mask = mask_serial(lists, line.hook, line.chain, pref, &line.mask)?;
    Some(Coming {
        mask,
        line,
        pref,
        handle,
        serials,
    })
}
