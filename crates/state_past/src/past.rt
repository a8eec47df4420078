//! The past of a journal's states.

use crate::coming::coming_in;
use crate::following::StepBefore;
use crate::names::{key_words, slot_name};
use crate::telling::tell_actions;
use act_kinds::Params;
use filter_lists::{Done, Edit, Lists, Refusal};
use flow_fields::Key;
use flow_mask::masked;
use slot_pasts::{SerialPasts, SlotPasts};
use std::alloc::Global;
use tc_base::{Numbers, Point};
use visit_room::Hit;

/// What the states of a journal had, at each of its points.
#[derive(Drop)]
pub struct StatePast {
    pub(crate) alloc: Global,
    pub(crate) slots: SlotPasts<Numbers>,
    pub(crate) masks: SerialPasts<Key<14>>,
    pub(crate) actions: SerialPasts<Params>,
    pub(crate) point: Point,
}

impl StatePast {
    ghost use Rattle.std.specs.Prelude.{◌≡◌, ◌≢◌, ◌^◌, ◌<◌, ◌+◌, ◌++◌, ◌∷◌, [], ℕ, List, IfOk, IfErr, IfSome};
    ghost use Rattle.std.specs.Option.{option_copied};
    ghost use Rattle.std.specs.Prelude.{option_map};
    ghost use Rattle.flow_fields.specs.Values.{values_of};
    ghost use Rattle.act_kinds.specs.Acts.{FitsFrames};
    ghost use Rattle.filter_state.specs.declared.edit.Edit.{Edit as EditValue};
    ghost use Rattle.filter_state.specs.declared.refusal.Refusal.TheVariants as refusals;
    ghost use Rattle.tc_base.specs.Memory.{no_memory};
    ghost use Rattle.filter_state.specs.Lines.{IsLine};
    ghost use Rattle.filter_state.specs.States.{State, no_state};
    ghost use Rattle.filter_state.specs.Journals.{state_from, state_at};
    ghost use Rattle.filter_state.specs.Steps.{step};
    ghost use Rattle.filter_lists.specs.Spells.{Spells};
    ghost use Rattle.filter_lists.specs.Edits.{MayStep};
    ghost use Rattle.walk_rules.specs.Questions.{filter_of, params_of, told_params};
    ghost use Rattle.walk_rules.specs.Answers.{answer_of};
    ghost use Rattle.walk_steps.specs.Told.{filter_told};
    ghost use Rattle.edit_effects.specs.OfEffects.Parts.{words_of};
    ghost use Rattle.state_past.specs.Remembering.{Remembers, IsFollowed};
    ghost use Rattle.state_past.specs.Told.{words_or_none};

    /// The past of no edits. It takes no memory yet.
    pub fn new(alloc: Global) -> StatePast
        ensures { Remembers result [] }
    {
        StatePast {
            alloc,
            slots: SlotPasts::new(alloc),
            masks: SerialPasts::new(alloc),
            actions: SerialPasts::new(alloc),
            point: 0,
        }
    }

    /// How many edits the past has.
    pub fn point(&self) -> Point
        ensures { result ≡ self.now.point }
    {
        self.point
    }

    /// One step of the lists, remembered.
    ///
    /// The refusals are those of the step, and then nothing changed. `NoMemory`: memory was refused, and
    /// nothing is promised of the past or the lists.
    pub fn follow(&mut self, lists: &mut Lists, edit: &Edit) -> Result<Done, Refusal>
        requires line { IsLine edit.now }
        requires may { MayStep lists.old }
        requires few { self.old.point + 1 < 2 ^ 32 }
        requires remembers { (journal : List EditValue) × Remembers self.old journal }
        ensures step { (s : State) → Spells lists.old s
            → IsFollowed lists.old lists.new result (step s edit.now) }
        ensures accepted { (journal : List EditValue) → Remembers self.old journal
            → Spells lists.old (state_from no_state journal)
            → IfOk result (λ done. Remembers self.new (journal ++ (edit.now ∷ []))
            × Spells lists.new (state_from no_state (journal ++ (edit.now ∷ [])))) }
        ensures refused { IfErr result (λ refusal. refusal ≢ refusals.NoMemory no_memory → self.new ≡ self.old) }
    {
        let before = StepBefore::of(self.alloc, lists, edit)?;
        let done = match lists.step(edit) {
            Ok(done) => done,
            Err(refusal) => return Err(refusal),
        };
        self.point += 1;
        let coming = coming_in(lists, edit, &done);
        self.remember(lists, &before, &coming)?;
        Ok(done)
    }

    /// Whether a frame of that key meets a filter of the mask at a point, whose actions are told; nothing,
    /// where the mask doesn't stand there. The room has no actions before.
    pub fn look_up(&self, point: Point, mask: u32, key: &Key<14>, into: &mut Hit) -> Option<bool>
        requires empty { into.old ≡ [] }
        requires remembers { (journal : List EditValue) × Remembers self.now journal }
        ensures { (journal : List EditValue) → Remembers self.now journal → (table : ℕ)
            → answer_of (state_at point journal) (filter_of table mask (values_of key.now.words))
            ≡ option_map (λ found. filter_told found into.new) result }
    {
        let Some(words) = self.masks.at(mask, point) else {
            return None;
        };
        let _words = key_words(key);
        let _mask = key_words(words);
        let name = slot_name(mask, &masked(key, words));
        match self.slots.at(&name, point) {
            Some(serials) => {
                tell_actions(serials.as_slice(), into);
                Some(true)
            }
            None => Some(false),
        }
    }

    /// The words of the mask of a serial that stands at a point.
    pub fn mask(&self, point: Point, serial: u32) -> Option<&Key<14>>
        requires { (journal : List EditValue) × Remembers self.now journal }
        ensures { (journal : List EditValue) → Remembers self.now journal
            → words_or_none (option_copied result) ≡ words_of (state_at point journal) serial }
    {
        self.masks.at(serial, point)
    }

    /// The parameters of an action that is live at a point.
    pub fn params(&self, point: Point, serial: u32) -> Option<Params>
        requires { (journal : List EditValue) × Remembers self.now journal }
        ensures answer { (journal : List EditValue) → Remembers self.now journal
            → answer_of (state_at point journal) (params_of serial) ≡ option_map told_params result }
        ensures fits { IfSome result FitsFrames }
    {
        match self.actions.at(serial, point) {
            Some(params) => Some(*params),
            None => None,
        }
    }
}
