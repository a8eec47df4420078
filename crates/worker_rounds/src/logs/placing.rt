//! The logs of a round's workers, put together.
ghost use Rattle.std.specs.Prelude.{◌≡◌, ℕ, ◌<◌, ◌≤◌, ◌^◌, List, All, length, map, slice_get, Some, IfOk};
ghost use Rattle.std.specs.List.{flat_map};
ghost use Rattle.step_counts.specs.Claims.{HasEachBelow};
ghost use Rattle.lawful_runs.specs.OfLogs.Logs.{ArePlaced};
ghost use Rattle.worker_rounds.specs.OfLogs.Rows.{numbers_of, outcomes_of};
ghost use Rattle.worker_rounds.specs.OfLogs.Named.{IsNamed};

use crate::logs::walk_log::WalkLog;
use run_report::{OutcomeList, OutcomePlace, Outcomes};
use std::alloc::Global;
use tc_base::NoMemory;

// Names the rows of one log at their numbers.
fn name_rows(places: &mut [OutcomePlace], list: u32, numbers: &[u32])
    requires below { All (λ number. number < length places.old) numbers.now }
    requires few { length numbers.now ≤ 2 ^ 32 }
    ensures named { (all : List (List ℕ)) → slice_get all list ≡ Some numbers.now
        → All (IsNamed all places.new) numbers.now }
    ensures kept { (all : List (List ℕ)) → slice_get all list ≡ Some numbers.now
        → (number : ℕ) → IsNamed all places.old number → IsNamed all places.new number }
{
    for (row, number) in numbers.iter().enumerate() {
        places[*number as usize] = OutcomePlace {
            list,
            row: row as u32,
        };
    }
}

// The place of each number below the count.
fn places_of(alloc: Global, logs: &[WalkLog], count: u32) -> Result<Vec<OutcomePlace>, NoMemory>
    requires few { length logs.now ≤ 2 ^ 32 }
    requires below { All (λ number. number < count) (flat_map numbers_of logs.now) }
    requires each_few { All (λ rows. length rows ≤ 2 ^ 32) logs.now }
    ensures many { IfOk result (λ places. length places.items ≡ count) }
    ensures named { IfOk result (λ places.
        All (IsNamed (map numbers_of logs.now) places.items) (flat_map numbers_of logs.now)) }
{
    let mut places = vec![in alloc; OutcomePlace { list: 0, row: 0 }; count as usize]?;
    for (list, log) in logs.iter().enumerate() {
        name_rows(&mut places, list as u32, log.numbers());
    }
    Ok(places)
}

// The outcomes of the logs, each log's in its list.
fn lists_of(alloc: Global, logs: Vec<WalkLog>) -> Result<Vec<OutcomeList>, NoMemory>
    ensures { IfOk result (λ lists. lists.items ≡ map outcomes_of logs.items) }
{
    let lists = logs.into_iter().map(|log| log.into_outcomes());
    Ok(lists.collect(alloc)?)
}

/// The outcomes of a round, at the numbers of their packets, where all rows of all logs have the numbers
/// below the count, each once. Each log's outcomes stay in the buffers that they lie in.
///
/// `NoMemory`: memory was refused, and the logs are gone.
pub fn put_together(alloc: Global, logs: Vec<WalkLog>, count: u32) -> Result<Outcomes, NoMemory>
    requires few { length logs.items ≤ 2 ^ 32 }
    requires numbers { HasEachBelow count (flat_map numbers_of logs.items) }
    ensures placed { IfOk result (λ outcomes. ArePlaced logs.items outcomes) }
    ensures many { IfOk result (λ outcomes. length outcomes ≡ count) }
{
    let places = places_of(alloc, &logs, count)?;
    let lists = lists_of(alloc, logs)?;
    Ok(Outcomes::of_lists(lists, places))
}
