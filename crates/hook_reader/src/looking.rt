//! The visit of a mask.
ghost use Rattle.std.specs.Prelude.{◌≡◌, true, false, [], length};
ghost use Rattle.hook_reader.specs.Seats.{first_head_of};
ghost use Rattle.hook_reader.specs.Told.{head_point};

use crate::head_seen::HeadSeen;
use crate::loads::look;
use crate::reader::HookReader;
use flow_fields::Key;
use hook_store_law::HookStore;
use tc_base::Point;
use visit_room::{Hit, MaskName};

// The point of the walk's first head.
pub(crate) fn head_point(head: &Option<HeadSeen>) -> Point
    ensures { result ≡ head_point (first_head_of head.now) }
{
    match head {
        Some(first) => first.point,
        None => 0,
    }
}

// The words of a key: there are fourteen.
fn words_of(key: &Key<14>) -> &[u64]
    ensures words { result.now ≡ key.now.words }
    ensures count { length result.now ≡ 14 }
{
    &key.words
}

// Lets the actions go where there is no filter.
fn clear_unless(found: bool, into: &mut Hit)
    ensures found { found ≡ true → into.new ≡ into.old }
    ensures none { found ≡ false → into.new ≡ [] }
{
    if !found {
        into.clear();
    }
}

impl HookReader {
    ghost use Rattle.store_history.specs.declared.places.TheConstants.{ROOTS};
    ghost use Rattle.std.specs.Prelude.{◌≡◌, ◌≤◌, ℕ};
    ghost use Rattle.pin_store.specs.Calls.{IsInside, IsSeatOf};
    ghost use Rattle.flow_fields.specs.Values.{values_of};
    ghost use Rattle.filter_state.specs.Sound.{Each};
    ghost use Rattle.visit_room.specs.declared.names.MaskName.{MaskName as MaskValue};
    ghost use Rattle.visit_room.specs.declared.names.ActionName.{ActionName};
    ghost use Rattle.block_chain.specs.Ways.{block_words};
    ghost use Rattle.walk_rules.specs.Questions.{filter_of};
    ghost use Rattle.walk_steps.specs.Told.{filter_told};
    ghost use Rattle.hook_reader.specs.Known.{KnowsMask, KnowsAction};
    ghost use Rattle.hook_reader.specs.Told.{WalkTold};

    /// The actions of the filter of a mask that a frame of that key meets, and whether there is one.
    pub(crate) fn visit_mask(
        &mut self,
        store: &HookStore,
        mask: MaskName,
        key: &Key<14>,
        into: &mut Hit,
    ) -> (bool, Point)
        requires store { IsSeatOf store.now self.old.place }
        requires shape { (store.now.shape.words ≡ block_words) × (ROOTS ≤ store.now.shape.roots) }
        requires inside { IsInside self.old.place }
        requires known { KnowsMask self.old mask }
        ensures store { IsSeatOf store.now self.new.place }
        ensures inside { IsInside self.new.place }
        ensures told { (table : ℕ) → WalkTold self.old (filter_of table mask.serial (values_of key.now.words))
            (filter_told result.0 into.new) result.1 self.new }
        ensures actions { Each (KnowsAction self.new) into.new }
        ensures kept_masks { (mask : MaskValue) → KnowsMask self.old mask → KnowsMask self.new mask }
        ensures kept_actions { (action : ActionName) → KnowsAction self.old action
            → KnowsAction self.new action }
    {
        let HookReader {
            reader,
            visits,
            latest,
            head,
            points,
            records,
            ..
        } = self;
        let _words = words_of(key);
        let floor = head_point(head).max(points.at(mask.slot));
        let (found, loaded) = look(records, reader, store, mask.slot, key, into);
        clear_unless(found, into);
        let point = loaded.max(floor);
        *visits = visits.saturating_add(1);
        *latest = point.max(*latest);
        points.set(mask.slot, point);
        (found, point)
    }
}
