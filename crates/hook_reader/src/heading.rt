//! The visit of a head.
ghost use Rattle.std.specs.Prelude.{◌≡◌, length, true};
ghost use Rattle.pin_store.specs.Calls.{seen_by};
ghost use Rattle.hook_reader.specs.Seats.{first_head_of};
ghost use Rattle.hook_reader.specs.Told.{first_of};

use crate::head_seen::HeadSeen;
use crate::reader::HookReader;
use crate::telling::tell_hook;
use hook_store_law::{HookLaw, HookStore};
use pin_store::Reader;
use std::snapshot::Snapshot;
use tc_base::{Hook, Point};
use visit_room::HeadRoom;

// Notes a head that was visited.
fn note_head(head: &mut Option<HeadSeen>, reader: &Reader<HookLaw>, point: Point)
    ensures { first_head_of head.new
        ≡ first_of (first_head_of head.old)
        (record { point = point; made = length (seen_by reader.now.place); alone = true }) }
{
    match head {
        Some(first) => first.is_alone = false,
        None => {
            *head = Some(HeadSeen {
                point,
                is_alone: true,
                reader: Snapshot::of(reader),
            });
        }
    }
}

impl HookReader {
    ghost use Rattle.store_history.specs.declared.places.TheConstants.{ROOTS};
    ghost use Rattle.std.specs.Prelude.{◌≡◌, ◌≤◌, ℕ};
    ghost use Rattle.pin_store.specs.Calls.{IsInside, IsSeatOf};
    ghost use Rattle.visit_room.specs.declared.names.MaskName.{MaskName};
    ghost use Rattle.visit_room.specs.declared.names.ActionName.{ActionName};
    ghost use Rattle.block_chain.specs.Ways.{block_words};
    ghost use Rattle.walk_rules.specs.Questions.{heads_of, told_heads};
    ghost use Rattle.walk_steps.specs.Told.{heads_told, MasksKnown};
    ghost use Rattle.hook_reader.specs.Known.{KnowsMask, KnowsAction};
    ghost use Rattle.hook_reader.specs.Told.{WalkTold};

    /// The tables of a hook.
    pub(crate) fn visit_head(&mut self, store: &HookStore, hook: Hook, into: &mut HeadRoom) -> Point
        requires store { IsSeatOf store.now self.old.place }
        requires shape { (store.now.shape.words ≡ block_words) × (ROOTS ≤ store.now.shape.roots) }
        requires inside { IsInside self.old.place }
        ensures store { IsSeatOf store.now self.new.place }
        ensures told { WalkTold self.old (heads_of hook) (told_heads (heads_told into.new.tables)) result
            self.new }
        ensures masks { MasksKnown (λ table mask. KnowsMask self.new mask) into.new.tables }
        ensures kept_masks { (mask : MaskName) → KnowsMask self.old mask → KnowsMask self.new mask }
        ensures kept_actions { (action : ActionName) → KnowsAction self.old action
            → KnowsAction self.new action }
    {
        let HookReader {
            reader,
            visits,
            latest,
            head,
            ingress,
            egress,
            ..
        } = self;
        let point = tell_hook(reader, ingress, egress, store, hook, into).max(*latest);
        *visits = visits.saturating_add(1);
        *latest = point;
        note_head(head, reader, point);
        point
    }
}
