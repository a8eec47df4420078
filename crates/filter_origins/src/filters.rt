//! Filters that an edit takes, and the one that it brings.
ghost use Rattle.std.specs.Prelude.{◌≡◌, ◌∷◌, [], ◌++◌, Some, length, OnOk};
ghost use Rattle.slot_pasts.specs.Pasts.{stood};
ghost use Rattle.slot_pasts.specs.Names.{past_of};
ghost use Rattle.state_past.specs.Brought.{Brought as AreBrought, AllUpTo};
ghost use Rattle.state_past.specs.Told.{coming_slots};
ghost use Rattle.filter_origins.specs.Noted.{all_taken, taken_at, place_at, brought_by};

use crate::brought::Brought;
use edit_lines::Line;
use slot_pasts::SlotPasts;
use state_past::gone_filters::GoingFilter;
use state_past::{Coming, slot_name};
use tc_base::{NoMemory, Point};

/// The filters that stand in the slots of these went with the edit of that number.
pub(crate) fn take_filters(
    slots: &SlotPasts<usize>,
    brought: &mut [Brought],
    edit: Point,
    going: &[GoingFilter],
)
    ensures { brought.new ≡ all_taken edit slots.now going.now brought.old }
{
    for filter in going {
        take_filter(slots, brought, edit, filter);
    }
}

// The same of one.
fn take_filter(slots: &SlotPasts<usize>, brought: &mut [Brought], edit: Point, filter: &GoingFilter)
    ensures { brought.new ≡ taken_at edit (place_at edit slots.now filter.now) brought.old }
{
    let Some(place) = slots.at(&slot_name(filter.mask, &filter.key), edit) else {
        return;
    };
    if *place < brought.len() {
        brought[*place].gone = Some(edit);
    }
}

/// The filter that the edit of a line put stands in its slot from that edit on.
pub(crate) fn put_filter(
    slots: &mut SlotPasts<usize>,
    brought: &mut Vec<Brought>,
    coming: &Option<Coming<'_>>,
    by: Line,
) -> Result<(), NoMemory>
    requires { AllUpTo by.edit (past_of slots.old) }
    ensures slots { OnOk result (AreBrought by.edit stood (λ name. Some (length brought.old.items))
        (coming_slots coming.now) (past_of slots.old) (past_of slots.new)) }
    ensures brought { OnOk result (brought.new.items ≡ brought.old.items ++ brought_by by coming.now) }
{
    let Some(coming) = coming else {
        return Ok(());
    };
    let place = brought.len();
    brought.push(brought_now(coming, by))?;
    slots.put(
        slot_name(coming.mask, &coming.line.key),
        by.edit,
        Some(place),
    )
}

// The filter, as it was brought.
fn brought_now(coming: &Coming<'_>, by: Line) -> Brought
    ensures { result ∷ [] ≡ brought_by by (Some coming.now) }
{
    Brought {
        by,
        hook: coming.line.hook,
        chain: coming.line.chain,
        pref: coming.pref,
        protocol: coming.line.protocol,
        handle: coming.handle,
        gone: None,
    }
}
