//! Lists that answer a walk.

use crate::finding::look_up;
use crate::heads::tell_heads;
use act_kinds::Params;
use filter_lists::Lists;
use flow_fields::Key;
use tc_base::{Hook, Point};
use visit_room::{ActionName, HeadRoom, Hit, MaskName};
use walk_steps::Visits;

/// Lists that stay as they are, and the point of their state.
#[derive(Drop)]
pub struct Still<'a> {
    pub lists: &'a Lists,
    pub point: Point,
}

impl Visits for Still<'_> {
    ghost use Rattle.std.specs.Prelude.{◌≡◌};
    ghost use Rattle.classify_walk.specs.Answered.{StillTold, StandsMask, StandsAction};

    ghost told = { λ old question answer point new. StillTold old.lists.now old.point question answer point
        × (new ≡ old) };

    ghost knows_mask = { λ v table mask. StandsMask v.lists.now mask.serial };

    ghost knows_action = { λ v action. StandsAction v.lists.now action.serial };

    fn head(&mut self, hook: Hook, into: &mut HeadRoom) -> Point {
        tell_heads(self.lists, hook, into);
        self.point
    }

    fn lookup(
        &mut self,
        _table: u32,
        mask: MaskName,
        key: &Key<14>,
        into: &mut Hit,
    ) -> (bool, Point) {
        into.clear();
        (look_up(self.lists, mask, key, into), self.point)
    }

    fn params(&mut self, action: ActionName) -> (Params, Point) {
        let Some(entry) = self.lists.actions().of_serial(action.serial) else {
            unreachable!();
        };
        (entry.params, self.point)
    }
}
