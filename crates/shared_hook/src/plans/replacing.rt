//! A filter is replaced.
ghost use Rattle.std.specs.Prelude.{◌≡◌};
ghost use Rattle.tc_base.specs.declared.hook.Hook.{Hook};
ghost use Rattle.pin_store.specs.Calls.{IsSeatOf};
ghost use Rattle.desk_parts.specs.declared.ways.way.Way.TheVariants as ways;
ghost use Rattle.shared_hook.specs.OfPlans.Done.{IsDone};
ghost use Rattle.shared_hook.specs.OfPlans.Plans.{MayEdit};

use crate::desk_edits::exchange_in_place;
use crate::desk_edits::moves::{MaskRoom, give_other_key, give_other_mask};
use crate::plans::lines::line_of;
use crate::plans::means::Means;
use desk_parts::Parts;
use filter_lists::{Done, Edit, Prepared};
use hook_store_law::HookStore;
use store_history::EditName;

// By one with its mask and key.
pub(crate) fn in_place<E: EditName<Edit>>(
    parts: &mut Parts,
    store: &HookStore,
    edit: &Edit,
    prepared: Prepared,
    slot: u32,
    later: u32,
    means: Means,
) -> Done
    requires store { IsSeatOf store.now parts.old.ledger.writer.place }
    requires edit { edit.now ≡ E.edit }
    requires may { MayEdit parts.old E.edit prepared (ways.InPlace slot later) means }
    ensures store { IsSeatOf store.now parts.new.ledger.writer.place }
    ensures done { IsDone parts.old parts.new E.edit result }
{
    let line = line_of(edit);
    let Means { gone, first, .. } = means;
    let MaskRoom { numbers, .. } = first;
    exchange_in_place::<E>(
        parts,
        store,
        line,
        prepared,
        gone.as_slice(),
        slot,
        later,
        numbers,
    )
}

// By one with another key.
pub(crate) fn with_other_key<E: EditName<Edit>>(
    parts: &mut Parts,
    store: &HookStore,
    edit: &Edit,
    prepared: Prepared,
    slot: u32,
    count: u32,
    means: Means,
) -> Done
    requires store { IsSeatOf store.now parts.old.ledger.writer.place }
    requires edit { edit.now ≡ E.edit }
    requires may { (hook : Hook) × MayEdit parts.old E.edit prepared (ways.OtherKey hook slot count) means }
    ensures store { IsSeatOf store.now parts.new.ledger.writer.place }
    ensures done { IsDone parts.old parts.new E.edit result }
{
    let line = line_of(edit);
    let Means { gone, first, .. } = means;
    give_other_key::<E>(
        parts,
        store,
        line,
        prepared,
        gone.as_slice(),
        slot,
        count,
        first,
    )
}

// By one with another mask.
pub(crate) fn with_other_mask<E: EditName<Edit>>(
    parts: &mut Parts,
    store: &HookStore,
    edit: &Edit,
    prepared: Prepared,
    slot: u32,
    count: u32,
    into: Option<u32>,
    others: u32,
    means: Means,
) -> Done
    requires store { IsSeatOf store.now parts.old.ledger.writer.place }
    requires edit { edit.now ≡ E.edit }
    requires may { (hook : Hook) × MayEdit parts.old E.edit prepared (ways.OtherMask hook slot count into others) means }
    ensures store { IsSeatOf store.now parts.new.ledger.writer.place }
    ensures done { IsDone parts.old parts.new E.edit result }
{
    let line = line_of(edit);
    let Means {
        gone,
        first,
        second,
    } = means;
    give_other_mask::<E>(
        parts,
        store,
        line,
        prepared,
        gone.as_slice(),
        slot,
        count,
        into,
        others,
        first,
        second,
    )
}
