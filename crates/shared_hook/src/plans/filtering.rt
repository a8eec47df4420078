//! An edit of filters is done in its way.
ghost use Rattle.std.specs.Prelude.{◌≡◌};
ghost use Rattle.pin_store.specs.Calls.{IsSeatOf};
ghost use Rattle.shared_hook.specs.OfPlans.Done.{IsDone};
ghost use Rattle.shared_hook.specs.OfPlans.Plans.{MayEdit};

use crate::plans::adding::{into_mask, with_mask};
use crate::plans::deleting::{out_of_mask, with_masks};
use crate::plans::means::Means;
use crate::plans::replacing::{in_place, with_other_key, with_other_mask};
use desk_parts::Parts;
use desk_parts::ways::Way;
use filter_lists::{Done, Edit, Prepared};
use hook_store_law::HookStore;
use store_history::EditName;

/// Does an edit of filters in the way that was found.
pub(crate) fn edit_filters<E: EditName<Edit>>(
    parts: &mut Parts,
    store: &HookStore,
    edit: &Edit,
    prepared: Prepared,
    way: Way,
    means: Means,
) -> Done
    requires store { IsSeatOf store.now parts.old.ledger.writer.place }
    requires edit { edit.now ≡ E.edit }
    requires may { MayEdit parts.old E.edit prepared way means }
    ensures store { IsSeatOf store.now parts.new.ledger.writer.place }
    ensures done { IsDone parts.old parts.new E.edit result }
{
    match way {
        Way::IntoMask { slot, count } => {
            into_mask::<E>(parts, store, edit, prepared, slot, count, means)
        }
        Way::WithMask { .. } => with_mask::<E>(parts, store, edit, prepared, means),
        Way::InPlace { slot, later } => {
            in_place::<E>(parts, store, edit, prepared, slot, later, means)
        }
        Way::OtherKey { slot, count, .. } => {
            with_other_key::<E>(parts, store, edit, prepared, slot, count, means)
        }
        Way::OtherMask {
            slot,
            count,
            into,
            others,
            ..
        } => with_other_mask::<E>(
            parts, store, edit, prepared, slot, count, into, others, means,
        ),
        Way::OutOfMask { slot, count, later } => {
            out_of_mask::<E>(parts, store, edit, prepared, slot, count, later, means)
        }
        Way::Closes { hook } => with_masks::<E>(parts, store, prepared, hook, means),
    }
}
