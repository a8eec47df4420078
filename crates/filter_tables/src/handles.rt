//! The handles of a table, sorted: what the lowest free one is found by.
ghost use Rattle.filter_state.specs.declared.limits.TheConstants.{FILTERS_MAX};
ghost use Rattle.std.specs.Prelude.{◌≡◌, ◌<◌, ◌≤◌, ◌+◌, ℕ, Bool, length, vec_capacity, if◌then◌else◌};
ghost use Rattle.std.specs.List.{count_by};
ghost use Rattle.filter_tables.specs.Handles.{IsRising, IsPlaceFor, times};

use crate::room::insert_within;

/// How many handles are lower: the place of that handle, or the place where it is to stand.
fn place_for(handles: &[u32], handle: u32) -> usize
    requires { IsRising handles.now }
    ensures { IsPlaceFor handle handles.now result }
{
    handles.partition_point(|other| *other < handle)
}

/// Puts a new handle in its place.
pub(crate) fn put_handle(handles: &mut Vec<u32>, handle: u32)
    requires room { length handles.old.items < vec_capacity handles.old }
    requires rising { IsRising handles.old.items }
    requires new { times handle handles.old.items ≡ 0 }
    ensures rising { IsRising handles.new.items }
    ensures counts { (test : ℕ → Bool) → count_by test handles.new.items
        ≡ count_by test handles.old.items + (if test handle then 1 else 0) }
{
    let place = place_for(handles, handle);
    insert_within(handles, place, handle);
}

/// Takes a handle out.
pub(crate) fn drop_handle(handles: &mut Vec<u32>, handle: u32)
    requires rising { IsRising handles.old.items }
    requires there { 0 < times handle handles.old.items }
    ensures rising { IsRising handles.new.items }
    ensures counts { (test : ℕ → Bool) → count_by test handles.new.items + (if test handle then 1 else 0)
        ≡ count_by test handles.old.items }
{
    let place = place_for(handles, handle);
    handles.remove(place);
}

/// The lowest number from 1 that is no handle. The handles rise from 1, so one that is higher than its place
/// is behind all that are not, and the first such is found by halving.
pub(crate) fn lowest_free(handles: &[u32]) -> u32
    requires rising { IsRising handles.now }
    requires from_one { times 0 handles.now ≡ 0 }
    requires few { length handles.now ≤ FILTERS_MAX }
    ensures from_one { 1 ≤ result }
    ensures free { times result handles.now ≡ 0 }
    ensures lowest { (lower : ℕ) → 1 ≤ lower → lower < result → 0 < times lower handles.now }
{
    let mut low = 0;
    let mut high = handles.len();
    while low < high {
        let middle = low + (high - low) / 2;
        if handles[middle] as usize == middle + 1 {
            low = middle + 1;
        } else {
            high = middle;
        }
    }
    low as u32 + 1
}
