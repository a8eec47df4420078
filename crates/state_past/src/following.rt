//! What is read off the lists before a step, and remembered behind it.
ghost use Rattle.std.specs.Prelude.{◌≡◌};
ghost use Rattle.hook_lists.specs.States.{state_of};
ghost use Rattle.state_past.specs.Told.{named_in};

use crate::actions::{note_filters, note_made, note_named};
use crate::coming::Coming;
use crate::gone_filters::{GoingFilter, filters_going, serial_named};
use crate::masks::{note_masks, put_mask};
use crate::past::StatePast;
use crate::slots::{put_slot, take_slots};
use filter_lists::{Edit, Lists};
use std::alloc::Global;
use tc_base::NoMemory;

/// What a step may change, as it was before.
#[derive(Drop)]
pub(crate) struct StepBefore {
    /// The filters that it takes away or replaces.
    pub(crate) going: Vec<GoingFilter>,
    /// The action that it names by kind and index.
    pub(crate) named: Option<u32>,
    /// How many actions were made.
    pub(crate) made: u32,
}

impl StepBefore {
    ghost use Rattle.std.specs.Prelude.{◌≡◌, map, IfOk};
    ghost use Rattle.hook_lists.specs.States.{AreKept, state_of};
    ghost use Rattle.state_past.specs.OfGoneFilters.Marks.{mark_of, marked};
    ghost use Rattle.state_past_laws.specs.OfChanges.Going.{rows_going};
    ghost use Rattle.state_past.specs.Told.{named_in};

    /// Reads it off the lists.
    pub(crate) fn of(alloc: Global, lists: &Lists, edit: &Edit) -> Result<StepBefore, NoMemory>
        ensures kept { AreKept lists.now }
        ensures going { IfOk result (λ before.
            map marked before.going.items ≡ map mark_of (rows_going (state_of lists.now) edit.now)) }
        ensures named { IfOk result (λ before. before.named ≡ named_in (state_of lists.now) edit.now) }
        ensures made { IfOk result (λ before. before.made ≡ lists.now.actions.made) }
    {
        let made = lists.actions().made();
        let named = named_before(lists, edit);
        let going = filters_going(alloc, lists, edit)?;
        Ok(StepBefore { going, named, made })
    }
}

// The action that an edit names by kind and index.
fn named_before(lists: &Lists, edit: &Edit) -> Option<u32>
    ensures { result ≡ named_in (state_of lists.now) edit.now }
{
    match edit {
        Edit::ActionChange(line) => serial_named(lists, line.kind, line.index.unwrap_or(0)),
        Edit::ActionDel { kind, index } => serial_named(lists, *kind, *index),
        _ => None,
    }
}

impl StatePast {
    ghost use Rattle.std.specs.Prelude.{◌≡◌, ◌-◌, OnOk};
    ghost use Rattle.filter_state.specs.States.{State};
    ghost use Rattle.filter_lists.specs.Spells.{Spells};
    ghost use Rattle.edit_effects.specs.OfEffects.Parts.{words_of};
    ghost use Rattle.slot_pasts.specs.Names.{past_of};
    ghost use Rattle.slot_pasts.specs.Serials.{past_at};
    ghost use Rattle.state_past.specs.Brought.{AllUpTo};
    ghost use Rattle.state_past.specs.Told.{AreLeft, StayLive, actions_of_all};
    ghost use Rattle.state_past.specs.Changed.{SlotsChanged, MasksChanged, ActionsChanged};

    // Puts at its point what the lists have, behind a step that was done.
    pub(crate) fn remember(
        &mut self,
        lists: &Lists,
        before: &StepBefore,
        coming: &Option<Coming<'_>>,
    ) -> Result<(), NoMemory>
        requires slots { AllUpTo self.old.point (past_of self.old.slots) }
        requires masks { AllUpTo self.old.point (past_at self.old.masks) }
        requires actions { AllUpTo self.old.point (past_at self.old.actions) }
        ensures point { self.new.point ≡ self.old.point }
        ensures slots { OnOk result (SlotsChanged self.old.point before.now.going.items coming.now
            (past_of self.old.slots) (past_of self.new.slots)) }
        ensures masks { (t : State) → Spells lists.now t → AreLeft t before.now.going.items (words_of t)
            → OnOk result (MasksChanged t self.old.point before.now.going.items coming.now
            (past_at self.old.masks) (past_at self.new.masks)) }
        ensures actions { (t : State) → Spells lists.now t
            → StayLive t self.old.point (past_at self.old.actions) (actions_of_all before.now.going.items)
            → OnOk result (ActionsChanged t self.old.point before.now
            (lists.now.actions.made - before.now.made) (past_at self.old.actions)
            (past_at self.new.actions)) }
    {
        let from = self.point;
        let going = before.going.as_slice();
        take_slots(&mut self.slots, from, going)?;
        put_slot(self.alloc, &mut self.slots, from, coming)?;
        note_masks(&mut self.masks, lists, from, going)?;
        put_mask(&mut self.masks, from, coming)?;
        note_filters(&mut self.actions, lists, from, going)?;
        note_named(&mut self.actions, lists, from, before.named)?;
        note_made(&mut self.actions, lists, from, before.made)
    }
}
