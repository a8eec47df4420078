//! What stood in the slots.
ghost use Rattle.std.specs.Prelude.{◌≡◌, None, IfOk, OnOk};
ghost use Rattle.slot_pasts.specs.Pasts.{stood};
ghost use Rattle.slot_pasts.specs.Names.{past_of};
ghost use Rattle.state_past.specs.Brought.{Brought, AllUpTo};
ghost use Rattle.state_past.specs.Told.{slots_of, coming_slots, coming_actions};

use crate::coming::Coming;
use crate::gone_filters::GoingFilter;
use crate::names::slot_name;
use slot_pasts::SlotPasts;
use std::alloc::Global;
use tc_base::{NoMemory, Numbers, Point};

/// From that point on nothing stands where these filters did.
pub(crate) fn take_slots(
    slots: &mut SlotPasts<Numbers>,
    from: Point,
    going: &[GoingFilter],
) -> Result<(), NoMemory>
    requires { AllUpTo from (past_of slots.old) }
    ensures { OnOk result (Brought from stood (λ name. None) (slots_of going.now)
        (past_of slots.old) (past_of slots.new)) }
{
    for filter in going {
        slots.put(slot_name(filter.mask, &filter.key), from, None)?;
    }
    Ok(())
}

/// From that point on the filter that was put stands in its slot.
pub(crate) fn put_slot(
    alloc: Global,
    slots: &mut SlotPasts<Numbers>,
    from: Point,
    coming: &Option<Coming<'_>>,
) -> Result<(), NoMemory>
    requires { AllUpTo from (past_of slots.old) }
    ensures { OnOk result (Brought from stood (λ name. coming_actions coming.now) (coming_slots coming.now)
        (past_of slots.old) (past_of slots.new)) }
{
    let Some(coming) = coming else {
        return Ok(());
    };
    let serials = copied(alloc, coming.serials)?;
    slots.put(
        slot_name(coming.mask, &coming.line.key),
        from,
        Some(serials),
    )
}

// The same numbers once more.
fn copied(alloc: Global, numbers: &Numbers) -> Result<Numbers, NoMemory>
    ensures { IfOk result (λ copy. copy ≡ numbers.now) }
{
    Ok(Numbers::from_vec(numbers.as_slice().to_vec(alloc)?))
}
