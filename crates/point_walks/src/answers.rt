//! Who answers at a point.

use act_kinds::Params;
use flow_fields::Key;
use tc_base::{Hook, Point};
use visit_room::{HeadRoom, Hit};

/// The answers of many states, each named by a point. What doesn't stand at a point has no answer there.
pub trait PointAnswers {
    ghost use Rattle.std.specs.Prelude.{◌≡◌, ℕ, [], Some, None, Option, IfSome, option_map, if◌then◌else◌};
    ghost use Rattle.flow_fields.specs.Values.{values_of};
    ghost use Rattle.act_kinds.specs.Acts.{FitsFrames};
    ghost use Rattle.walk_rules.specs.Questions.{Question, Answer, heads_of, filter_of, params_of};
    ghost use Rattle.walk_rules.specs.Questions.{told_heads, told_params};
    ghost use Rattle.walk_steps.specs.Told.{heads_told, filter_told};

    // What is answered at a point, where there is an answer.
    ghost answer: { Self → ℕ → Question → Option Answer };

    /// The tables of a hook, and whether they are known at that point.
    fn head(&self, point: Point, hook: Hook, into: &mut HeadRoom) -> bool
        ensures { answer self.now point (heads_of hook)
            ≡ (if result then Some (told_heads (heads_told into.new.tables)) else None) };

    /// Whether a frame of that key meets a filter of the mask, whose actions are told; nothing, where the
    /// mask doesn't stand. The room has no actions before.
    fn look_up(&self, point: Point, mask: u32, key: &Key<14>, into: &mut Hit) -> Option<bool>
        requires { into.old ≡ [] }
        ensures { (table : ℕ) → answer self.now point (filter_of table mask (values_of key.now.words))
            ≡ option_map (λ found. filter_told found into.new) result };

    /// The parameters of an action that is live.
    fn params(&self, point: Point, serial: u32) -> Option<Params>
        ensures answer { answer self.now point (params_of serial) ≡ option_map told_params result }
        ensures fits { IfSome result FitsFrames };
}
