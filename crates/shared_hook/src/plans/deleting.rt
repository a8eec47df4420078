//! Filters are deleted.
ghost use Rattle.std.specs.Prelude.{◌≡◌};
ghost use Rattle.pin_store.specs.Calls.{IsSeatOf};
ghost use Rattle.desk_parts.specs.declared.ways.way.Way.TheVariants as ways;
ghost use Rattle.shared_hook.specs.OfPlans.Done.{IsDone};
ghost use Rattle.shared_hook.specs.OfPlans.Plans.{MayEdit};

use crate::desk_edits::moves::MaskRoom;
use crate::desk_edits::{take_masks, take_out_of_mask};
use crate::plans::lines::handle_of;
use crate::plans::means::Means;
use desk_parts::Parts;
use filter_lists::{Done, Edit, Prepared};
use hook_store_law::HookStore;
use store_history::EditName;
use tc_base::Hook;

// A filter goes out of a mask that has others.
pub(crate) fn out_of_mask<E: EditName<Edit>>(
    parts: &mut Parts,
    store: &HookStore,
    edit: &Edit,
    prepared: Prepared,
    slot: u32,
    count: u32,
    later: u32,
    means: Means,
) -> Done
    requires store { IsSeatOf store.now parts.old.ledger.writer.place }
    requires edit { edit.now ≡ E.edit }
    requires may { MayEdit parts.old E.edit prepared (ways.OutOfMask slot count later) means }
    ensures store { IsSeatOf store.now parts.new.ledger.writer.place }
    ensures done { IsDone parts.old parts.new E.edit result }
{
    let handle = handle_of(edit);
    let Means {
        gone,
        first,
        second,
    } = means;
    let (MaskRoom { numbers: first, .. }, MaskRoom { numbers: anew, .. }) = (first, second);
    take_out_of_mask::<E>(
        parts,
        store,
        prepared,
        gone.as_slice(),
        handle,
        slot,
        count,
        later,
        first,
        anew,
    )
}

// Masks go with all their filters.
pub(crate) fn with_masks<E: EditName<Edit>>(
    parts: &mut Parts,
    store: &HookStore,
    prepared: Prepared,
    hook: Hook,
    means: Means,
) -> Done
    requires store { IsSeatOf store.now parts.old.ledger.writer.place }
    requires may { MayEdit parts.old E.edit prepared (ways.Closes hook) means }
    ensures store { IsSeatOf store.now parts.new.ledger.writer.place }
    ensures done { IsDone parts.old parts.new E.edit result }
{
    let Means { gone, .. } = means;
    take_masks::<E>(parts, store, prepared, gone.as_slice(), hook)
}
