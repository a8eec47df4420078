//! The names of the actions that an edit made.
ghost use Rattle.std.specs.Prelude.{◌≡◌, ◌≤◌, ◌+◌, ◌++◌, length, map, drop, vec_len, vec_capacity};
ghost use Rattle.act_registry.specs.Entries.{AreRising};
ghost use Rattle.action_plan.specs.Entries.{action_of, actions_of};
ghost use Rattle.batch_run.specs.Made.{name_of, later_names};

use act_kinds::Params;
use act_registry::Entry;
use batch_run::MadeAction;

fn name_of_entry(entry: &Entry<Params>) -> MadeAction
    ensures { result ≡ name_of (action_of entry.now) }
{
    MadeAction {
        serial: entry.serial,
        kind: entry.params.kind(),
        index: entry.index,
    }
}

// Where the entries begin that were made when `before` actions had been made already. They stand last, and an
// edit makes few, so the search goes from the end.
fn first_later(entries: &[Entry<Params>], before: u32) -> usize
    requires { AreRising entries.now }
    ensures within { result ≤ length entries.now }
    ensures later { later_names before (actions_of entries.now)
        ≡ map name_of (actions_of (drop result entries.now)) }
{
    let mut first = entries.len();
    while first > 0 && entries[first - 1].serial > before {
        first -= 1;
    }
    first
}

// Puts the names of entries behind those that are there.
fn push_names(made: &mut Vec<MadeAction>, entries: &[Entry<Params>])
    requires room { vec_len made.old + length entries.now ≤ vec_capacity made.old }
    ensures { made.new.items ≡ made.old.items ++ map name_of (actions_of entries.now) }
{
    for entry in entries {
        made.push_reserved(name_of_entry(entry));
    }
}

/// Puts the names of the entries that were made when `before` actions had been made already behind those that
/// are there. Room for them was reserved, so it takes no memory and can't fail.
pub fn push_new_names(made: &mut Vec<MadeAction>, entries: &[Entry<Params>], before: u32)
    requires rising { AreRising entries.now }
    requires room { vec_len made.old + length (later_names before (actions_of entries.now))
        ≤ vec_capacity made.old }
    ensures { made.new.items ≡ made.old.items ++ later_names before (actions_of entries.now) }
{
    push_names(made, &entries[first_later(entries, before)..]);
}
