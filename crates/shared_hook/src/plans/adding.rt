//! A filter is added.
ghost use Rattle.std.specs.Prelude.{◌≡◌};
ghost use Rattle.tc_base.specs.declared.hook.Hook.{Hook};
ghost use Rattle.pin_store.specs.Calls.{IsSeatOf};
ghost use Rattle.desk_parts.specs.declared.ways.way.Way.TheVariants as ways;
ghost use Rattle.shared_hook.specs.OfPlans.Done.{IsDone};
ghost use Rattle.shared_hook.specs.OfPlans.Plans.{MayEdit};

use crate::desk_edits::moves::MaskRoom;
use crate::desk_edits::{put_into_mask, put_with_mask};
use crate::plans::lines::line_of;
use crate::plans::means::Means;
use desk_parts::Parts;
use filter_lists::{Done, Edit, Prepared};
use hook_store_law::HookStore;
use store_history::EditName;

// A filter comes into a mask that stands.
pub(crate) fn into_mask<E: EditName<Edit>>(
    parts: &mut Parts,
    store: &HookStore,
    edit: &Edit,
    prepared: Prepared,
    slot: u32,
    count: u32,
    means: Means,
) -> Done
    requires store { IsSeatOf store.now parts.old.ledger.writer.place }
    requires edit { edit.now ≡ E.edit }
    requires may { MayEdit parts.old E.edit prepared (ways.IntoMask slot count) means }
    ensures store { IsSeatOf store.now parts.new.ledger.writer.place }
    ensures done { IsDone parts.old parts.new E.edit result }
{
    let line = line_of(edit);
    let Means { first, second, .. } = means;
    let (MaskRoom { numbers: first, .. }, MaskRoom { numbers: anew, .. }) = (first, second);
    put_into_mask::<E>(parts, store, line, prepared, slot, count, first, anew)
}

// A filter comes with a mask of its own.
pub(crate) fn with_mask<E: EditName<Edit>>(
    parts: &mut Parts,
    store: &HookStore,
    edit: &Edit,
    prepared: Prepared,
    means: Means,
) -> Done
    requires store { IsSeatOf store.now parts.old.ledger.writer.place }
    requires edit { edit.now ≡ E.edit }
    requires may { (hook : Hook) × MayEdit parts.old E.edit prepared (ways.WithMask hook) means }
    ensures store { IsSeatOf store.now parts.new.ledger.writer.place }
    ensures done { IsDone parts.old parts.new E.edit result }
{
    let line = line_of(edit);
    let Means { first, .. } = means;
    let MaskRoom { numbers, .. } = first;
    put_with_mask::<E>(parts, store, line, prepared, numbers)
}
