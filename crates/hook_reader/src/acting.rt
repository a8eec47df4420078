//! The visit of an action.

use crate::loads::read_action;
use crate::looking::head_point;
use crate::reader::HookReader;
use act_kinds::Params;
use hook_store_law::HookStore;
use tc_base::Point;
use visit_room::ActionName;

impl HookReader {
    ghost use Rattle.store_history.specs.declared.places.TheConstants.{ROOTS};
    ghost use Rattle.std.specs.Prelude.{◌≡◌, ◌≤◌, ℕ};
    ghost use Rattle.act_kinds.specs.Acts.{FitsFrames};
    ghost use Rattle.pin_store.specs.Calls.{IsInside, IsSeatOf};
    ghost use Rattle.visit_room.specs.declared.names.MaskName.{MaskName};
    ghost use Rattle.visit_room.specs.declared.names.ActionName.{ActionName as ActionValue};
    ghost use Rattle.block_chain.specs.Ways.{block_words};
    ghost use Rattle.walk_rules.specs.Questions.{params_of, told_params};
    ghost use Rattle.hook_reader.specs.Known.{KnowsMask, KnowsAction};
    ghost use Rattle.hook_reader.specs.Told.{WalkTold};

    /// The parameters of an action.
    pub(crate) fn visit_action(&mut self, store: &HookStore, action: ActionName) -> (Params, Point)
        requires store { IsSeatOf store.now self.old.place }
        requires shape { (store.now.shape.words ≡ block_words) × (ROOTS ≤ store.now.shape.roots) }
        requires inside { IsInside self.old.place }
        requires known { KnowsAction self.old action }
        ensures store { IsSeatOf store.now self.new.place }
        ensures told { WalkTold self.old (params_of action.serial) (told_params result.0) result.1 self.new }
        ensures fits { FitsFrames result.0 }
        ensures kept_masks { (mask : MaskName) → KnowsMask self.old mask → KnowsMask self.new mask }
        ensures kept_actions { (action : ActionValue) → KnowsAction self.old action
            → KnowsAction self.new action }
    {
        let HookReader {
            reader,
            visits,
            latest,
            head,
            records,
            ..
        } = self;
        let (params, stamp) = read_action(records, reader, store, action.slot);
        let Some(params) = params else {
            unreachable!();
        };
        let point = stamp.max(head_point(head));
        *visits = visits.saturating_add(1);
        *latest = point.max(*latest);
        (params, point)
    }
}
