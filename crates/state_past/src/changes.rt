//! Where the answers of a journal's states change next.

use crate::names::key_words;
use crate::others::{other_params_after, other_words_after};
use crate::past::StatePast;
use flow_fields::Key;
use tc_base::Point;

impl StatePast {
    ghost use Rattle.std.specs.Prelude.{ℕ, List};
    ghost use Rattle.flow_fields.specs.Values.{values_of};
    ghost use Rattle.filter_state.specs.declared.edit.Edit.{Edit as EditValue};
    ghost use Rattle.filter_state.specs.Journals.{state_at};
    ghost use Rattle.walk_rules.specs.Questions.{filter_of, params_of};
    ghost use Rattle.walk_rules.specs.Answers.{answer_of};
    ghost use Rattle.edit_effects.specs.OfEffects.Parts.{words_of};
    ghost use Rattle.state_past.specs.Remembering.{Remembers};
    ghost use Rattle.state_past.specs.NextChange.{IsNextChange};

    /// The first point behind that one at which a frame of that key is answered otherwise under the mask than
    /// there: the mask comes or goes, or other actions are met, or none. Nothing, where it stays so.
    pub fn look_up_after(&self, point: Point, mask: u32, key: &Key<14>) -> Option<Point>
        requires { (journal : List EditValue) × Remembers self.now journal }
        ensures { (journal : List EditValue) → Remembers self.now journal → (table : ℕ) → IsNextChange
            (λ at. answer_of (state_at at journal) (filter_of table mask (values_of key.now.words)))
            point result }
    {
        let _words = key_words(key);
        self.other_found_after(point, mask, key)
    }

    /// The first point behind that one at which the mask of a serial has other words than there, or comes or
    /// goes. Nothing, where it stays so.
    pub fn mask_after(&self, point: Point, serial: u32) -> Option<Point>
        requires { (journal : List EditValue) × Remembers self.now journal }
        ensures { (journal : List EditValue) → Remembers self.now journal → IsNextChange
            (λ at. words_of (state_at at journal) serial) point result }
    {
        other_words_after(&self.masks, point, serial)
    }

    /// The first point behind that one at which an action has other parameters than there, or comes or goes.
    /// Nothing, where it stays so.
    pub fn params_after(&self, point: Point, serial: u32) -> Option<Point>
        requires { (journal : List EditValue) × Remembers self.now journal }
        ensures { (journal : List EditValue) → Remembers self.now journal → IsNextChange
            (λ at. answer_of (state_at at journal) (params_of serial)) point result }
    {
        other_params_after(&self.actions, point, serial)
    }
}
