//! A question that is asked at several points.

use crate::answer_rooms::AnswerRooms;
use crate::same_answers::{are_same_actions, are_same_tables};
use crate::same_params::are_same_params;
use flow_fields::Key;
use state_past::journals::PointChanges;
use tc_base::{Hook, Point};

/// A question, and who answers it at points.
pub(crate) trait Asked {
    ghost use Rattle.std.specs.Prelude.{◌≡◌, ℕ, Option, Some, None, if◌then◌else◌};
    ghost use Rattle.walk_rules.specs.Questions.{Answer};
    ghost use Rattle.state_past.specs.NextChange.{IsNextChange};
    ghost use Rattle.fate_search.specs.declared.answer_rooms.AnswerRooms.{AnswerRooms as Rooms};
    ghost use Rattle.fate_search.specs.Branches.{same_told};

    // What is answered at a point, where there is an answer.
    ghost told: { Self → ℕ → Option Answer };

    // The answer that is held.
    ghost held: { Self → Rooms → Answer };

    /// Whether there is an answer at a point, which is held then.
    fn hold(&self, rooms: &mut AnswerRooms, point: Point) -> bool
        ensures { told self.now point ≡ (if result then Some (held self.now rooms.new) else None) };

    /// Whether the answer that is held is given at a point too.
    fn is_same(&self, rooms: &mut AnswerRooms, point: Point) -> bool
        ensures same { result ≡ same_told (Some (held self.now rooms.old)) (told self.now point) }
        ensures kept { held self.now rooms.new ≡ held self.now rooms.old };

    /// The first point behind that one at which the answer is another.
    fn next_change(&self, point: Point) -> Option<Point>
        ensures { IsNextChange (told self.now) point result };
}

/// The tables of a hook.
#[derive(Drop)]
pub(crate) struct TablesAsked<'a, A> {
    pub(crate) answers: &'a A,
    pub(crate) hook: Hook,
}

impl<A: PointChanges> Asked for TablesAsked<'_, A> {
    ghost use Rattle.walk_rules.specs.Questions.{heads_of, told_heads};
    ghost use Rattle.walk_steps.specs.Told.{heads_told};

    ghost told = { λ a at. A.answer a.answers.now at (heads_of a.hook) };

    ghost held = { λ a rooms. told_heads (heads_told rooms.heads.tables) };

    fn hold(&self, rooms: &mut AnswerRooms, point: Point) -> bool {
        self.answers.head(point, self.hook, &mut rooms.heads)
    }

    fn is_same(&self, rooms: &mut AnswerRooms, point: Point) -> bool {
        self.answers.head(point, self.hook, &mut rooms.other_heads)
            && are_same_tables(rooms.heads.heads(), rooms.other_heads.heads())
    }

    fn next_change(&self, point: Point) -> Option<Point> {
        self.answers.head_after(point, self.hook)
    }
}

/// The filter of a mask of a table that a frame of a key meets.
#[derive(Drop)]
pub(crate) struct FilterAsked<'a, A> {
    pub(crate) answers: &'a A,
    pub(crate) table: u32,
    pub(crate) mask: u32,
    pub(crate) key: &'a Key<14>,
}

impl<A: PointChanges> Asked for FilterAsked<'_, A> {
    ghost use Rattle.flow_fields.specs.Values.{values_of};
    ghost use Rattle.walk_rules.specs.Questions.{filter_of};
    ghost use Rattle.walk_steps.specs.Told.{filter_told};

    ghost told = { λ a at. A.answer a.answers.now at (filter_of a.table a.mask (values_of a.key.now.words)) };

    ghost held = { λ a rooms. filter_told rooms.is_hit rooms.hit };

    fn hold(&self, rooms: &mut AnswerRooms, point: Point) -> bool {
        rooms.hit.clear();
        match self
            .answers
            .look_up(point, self.mask, self.key, &mut rooms.hit)
        {
            Some(is_hit) => {
                rooms.is_hit = is_hit;
                true
            }
            None => false,
        }
    }

    fn is_same(&self, rooms: &mut AnswerRooms, point: Point) -> bool {
        rooms.other_hit.clear();
        match self
            .answers
            .look_up(point, self.mask, self.key, &mut rooms.other_hit)
        {
            Some(true) => rooms.is_hit
                && are_same_actions(rooms.hit.actions(), rooms.other_hit.actions()),
            Some(false) => !rooms.is_hit,
            None => false,
        }
    }

    fn next_change(&self, point: Point) -> Option<Point> {
        self.answers.look_up_after(point, self.mask, self.key)
    }
}

/// The parameters of an action.
#[derive(Drop)]
pub(crate) struct ParamsAsked<'a, A> {
    pub(crate) answers: &'a A,
    pub(crate) serial: u32,
}

impl<A: PointChanges> Asked for ParamsAsked<'_, A> {
    ghost use Rattle.walk_rules.specs.Questions.{params_of, told_params};

    ghost told = { λ a at. A.answer a.answers.now at (params_of a.serial) };

    ghost held = { λ a rooms. told_params rooms.params };

    fn hold(&self, rooms: &mut AnswerRooms, point: Point) -> bool {
        match self.answers.params(point, self.serial) {
            Some(params) => {
                rooms.params = params;
                true
            }
            None => false,
        }
    }

    fn is_same(&self, rooms: &mut AnswerRooms, point: Point) -> bool {
        match self.answers.params(point, self.serial) {
            Some(params) => are_same_params(rooms.params, params),
            None => false,
        }
    }

    fn next_change(&self, point: Point) -> Option<Point> {
        self.answers.params_after(point, self.serial)
    }
}
