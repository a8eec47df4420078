//! The actions that a batch makes, by their names.
ghost use Rattle.std.specs.Prelude.{◌≡◌, ◌≤◌, ◌++◌, length, map, drop, OnOk};
ghost use Rattle.act_registry.specs.Entries.{AreRising};
ghost use Rattle.action_plan.specs.Entries.{action_of, actions_of};
ghost use Rattle.batch_run.specs.Made.{name_of, later_names};

use act_kinds::{Kind, Params};
use act_registry::Entry;
use tc_base::NoMemory;

/// The name of an action that was made in a run: it stays the action's own, also when the action is gone.
#[derive(Clone, Copy, Debug, PartialEq, Eq)]
pub struct MadeAction {
    /// Counted from 1 over the run, and never given twice.
    pub serial: u32,
    pub kind: Kind,
    /// Tells the live actions of one kind apart, and may be given again once the action is gone.
    pub index: u32,
}

impl MadeAction {
    fn of(entry: &Entry<Params>) -> MadeAction
        ensures { result ≡ name_of (action_of entry.now) }
    {
        MadeAction {
            serial: entry.serial,
            kind: entry.params.kind(),
            index: entry.index,
        }
    }
}

/// Puts the names of the entries that were made when `before` actions had been made already behind those that
/// are there.
///
/// Entries stand in the order of their serials, so only the last ones are looked at. `NoMemory`: memory was
/// refused; then some of the names may be there.
pub fn log_made(
    made: &mut Vec<MadeAction>,
    entries: &[Entry<Params>],
    before: u32,
) -> Result<(), NoMemory>
    requires { AreRising entries.now }
    ensures { OnOk result (made.new.items ≡ made.old.items ++ later_names before (actions_of entries.now)) }
{
    let later = &entries[first_later(entries, before)..];
    for entry in later {
        made.push(MadeAction::of(entry))?;
    }
    Ok(())
}

// Where those entries begin. They stand last, and an edit makes few, so the search goes from the end.
fn first_later(entries: &[Entry<Params>], before: u32) -> usize
    requires { AreRising entries.now }
    ensures within { result ≤ length entries.now }
    ensures later { later_names before (actions_of entries.now)
        ≡ map name_of (actions_of (drop result entries.now)) }
{
    let mut first = entries.len();
    while first > 0 && entries[first - 1].serial > before {
        first -= 1;
    }
    first
}
