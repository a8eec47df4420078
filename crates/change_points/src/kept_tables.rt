//! The tables of a hook, as they stood at a point.
ghost use Rattle.std.specs.Prelude.{◌≡◌, map};
ghost use Rattle.std.specs.Bool.{Decides};
ghost use Rattle.filter_tables.specs.Seen.{plain_table};
ghost use Rattle.head_laws.specs.Heads.{head_of};

use crate::kept_table::KeptTable;
use filter_lists::{FilterTable, Lists};
use std::alloc::Global;
use std::marker::Model;
use tc_base::{Hook, NoMemory};
use visit_room::HeadRoom;

/// The tables of a hook in their order, as contracts see them when they are told to a walk.
#[derive(Drop)]
pub struct KeptTables {
    tables: Vec<KeptTable>,
}

impl Model for KeptTables {
    ghost use Rattle.visit_room.specs.declared.limits.TheConstants.{HEAD_TABLES};
    ghost use Rattle.std.specs.Prelude.{◌≤◌, List, length};
    ghost use Rattle.walk_rules.specs.Questions.{Head};

    ghost Value = { List Head };

    ghost view = { λ k. k.tables.items };

    ghost invariant = { λ k. length k.tables.items ≤ HEAD_TABLES };
}

impl KeptTables {
    ghost use Rattle.std.specs.Prelude.{◌≡◌, map, IfOk};
    ghost use Rattle.std.specs.Bool.{Decides};
    ghost use Rattle.hook_lists.specs.States.{both_of, AreKept};
    ghost use Rattle.filter_tables.specs.Rows.{tables_on};
    ghost use Rattle.walk_steps.specs.Told.{heads_told};
    ghost use Rattle.head_laws.specs.Heads.{head_of};

    /// A copy of the tables as they stand.
    pub(crate) fn of(alloc: Global, lists: &Lists, hook: Hook) -> Result<KeptTables, NoMemory>
        ensures tables { IfOk result (λ kept. kept ≡ map head_of (tables_on hook (both_of lists.now))) }
        ensures kept { AreKept lists.now }
    {
        let tables = lists.tables(hook);
        let mut kept = Vec::with_capacity(alloc, tables.len())?;
        for table in tables {
            kept.push(KeptTable::of(table))?;
        }
        Ok(KeptTables { tables: kept })
    }

    /// Whether the tables stand so.
    pub(crate) fn are_of(&self, lists: &Lists, hook: Hook) -> bool
        ensures { Decides result (self.now ≡ map head_of (tables_on hook (both_of lists.now))) }
    {
        are_tables(&self.tables, lists.tables(hook))
    }

    /// Tells the tables, in place of those that were told.
    pub(crate) fn tell(&self, into: &mut HeadRoom)
        ensures { heads_told into.new.tables ≡ self.now }
    {
        into.clear();
        for table in &self.tables {
            table.tell(into);
        }
    }
}

// Whether these are copies of the tables.
fn are_tables(kept: &[KeptTable], tables: &[FilterTable]) -> bool
    ensures { Decides result (kept.now ≡ map head_of (map plain_table tables.now)) }
{
    if kept.len() != tables.len() {
        return false;
    }
    for (place, table) in tables.iter().enumerate() {
        if !kept[place].is(table) {
            return false;
        }
    }
    true
}
