//! How often actions ran.
ghost use Rattle.std.specs.Prelude.{◌≡◌, [], ◌∷◌, map, IfOk};
ghost use Rattle.filter_state.specs.Sound.{Each};
ghost use Rattle.walk_steps.specs.Told.{execution, IsShortRun};
ghost use Rattle.capture_walk.specs.Captures.{no_counts, each_added, together};
ghost use Rattle.capture_walk.specs.Room.{HasRoom, HasRoomForRun};

use std::alloc::Global;
use tc_base::NoMemory;
use walk_ends::Count;

// A count with one execution more, on a frame of that length.
fn with_one(count: Count, length: u32) -> Count
    requires { HasRoom count }
    ensures { result ≡ together count (record { packets = 1; bytes = length }) }
{
    Count {
        packets: count.packets + 1,
        bytes: count.bytes + u64::from(length),
    }
}

/// No action ran yet: a count for each of so many.
pub(crate) fn no_counts(alloc: Global, actions: u32) -> Result<Vec<Count>, NoMemory>
    ensures { IfOk result (λ counts. counts.items ≡ no_counts actions) }
{
    let none = Count {
        packets: 0,
        bytes: 0,
    };
    Ok(vec![in alloc; none; actions as usize]?)
}

/// Counts the executions of one walk, of the actions that the counts are for: they begin with serial 1.
pub(crate) fn add_executed(counts: &mut [Count], executed: &[(u32, u32)])
    requires room { Each HasRoomForRun counts.old }
    requires short { IsShortRun executed.now }
    ensures { counts.new ≡ each_added 1 counts.old (map execution executed.now) }
{
    for (serial, length) in executed {
        add_one(counts, *serial, *length);
    }
}

// Counts one execution, at its serial. One of an action that the counts aren't for changes nothing.
fn add_one(counts: &mut [Count], serial: u32, length: u32)
    requires { Each HasRoom counts.old }
    ensures { counts.new ≡ each_added 1 counts.old (record { serial = serial; length = length } ∷ []) }
{
    let Some(place) = (serial as usize).checked_sub(1) else {
        return;
    };
    if place < counts.len() {
        counts[place] = with_one(counts[place], length);
    }
}
