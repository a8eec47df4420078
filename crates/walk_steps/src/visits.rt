//! Who answers the questions of a walk.

use act_kinds::Params;
use flow_fields::Key;
use tc_base::{Hook, Point};
use visit_room::{ActionName, HeadRoom, Hit, MaskName};

/// Who answers the questions of a walk, each at a point: how many edits were accepted before the state that
/// the answer is of.
///
/// A walk asks for masks and actions by names that it was told before, and whoever answers knows these.
/// Nothing that is known is forgotten while the walk lasts.
pub trait Visits {
    ghost use Rattle.std.specs.Prelude.{ℕ};
    ghost use Rattle.flow_fields.specs.Values.{values_of};
    ghost use Rattle.filter_state.specs.Sound.{Each};
    ghost use Rattle.act_kinds.specs.Acts.{FitsFrames};
    ghost use Rattle.visit_room.specs.declared.names.MaskName.{MaskName as MaskValue};
    ghost use Rattle.visit_room.specs.declared.names.ActionName.{ActionName as ActionValue};
    ghost use Rattle.walk_rules.specs.Questions.{Question, Answer, heads_of, filter_of, params_of};
    ghost use Rattle.walk_rules.specs.Questions.{told_heads, told_params};
    ghost use Rattle.walk_steps.specs.Told.{heads_told, filter_told, MasksKnown};

    // Who answers before a visit, the question, the answer, its point, and who answers after it.
    ghost told: { Self → Question → Answer → ℕ → Self → Type 0 };

    // The masks of tables that are known, by the table's serial and the mask's name.
    ghost knows_mask: { Self → ℕ → MaskValue → Type 0 };

    // The actions that are known.
    ghost knows_action: { Self → ActionValue → Type 0 };

    /// The tables of a hook.
    fn head(&mut self, hook: Hook, into: &mut HeadRoom) -> Point
        ensures told { told self.old (heads_of hook) (told_heads (heads_told into.new.tables)) result
            self.new }
        ensures masks { MasksKnown (knows_mask self.new) into.new.tables }
        ensures kept_masks { (table : ℕ) (mask : MaskValue) → knows_mask self.old table mask
            → knows_mask self.new table mask }
        ensures kept_actions { (action : ActionValue) → knows_action self.old action
            → knows_action self.new action };

    /// The actions of the filter of a mask that a frame of that key meets, and whether there is one.
    fn lookup(&mut self, table: u32, mask: MaskName, key: &Key<14>, into: &mut Hit) -> (bool, Point)
        requires known { knows_mask self.old table mask }
        ensures told { told self.old (filter_of table mask.serial (values_of key.now.words))
            (filter_told result.0 into.new) result.1 self.new }
        ensures actions { Each (knows_action self.new) into.new }
        ensures kept_masks { (table : ℕ) (mask : MaskValue) → knows_mask self.old table mask
            → knows_mask self.new table mask }
        ensures kept_actions { (action : ActionValue) → knows_action self.old action
            → knows_action self.new action };

    /// The parameters of an action. They fit frames.
    fn params(&mut self, action: ActionName) -> (Params, Point)
        requires known { knows_action self.old action }
        ensures told { told self.old (params_of action.serial) (told_params result.0) result.1 self.new }
        ensures fits { FitsFrames result.0 }
        ensures kept_masks { (table : ℕ) (mask : MaskValue) → knows_mask self.old table mask
            → knows_mask self.new table mask }
        ensures kept_actions { (action : ActionValue) → knows_action self.old action
            → knows_action self.new action };
}
