//! Lists of tables as they are stored.
ghost use Rattle.std.specs.Prelude.{◌≡◌, ◌<◌, ◌++◌, ◌∷◌, [], length, IfOk};
ghost use Rattle.block_codec.specs.declared.places.TheConstants.{TABLES};

use block_codec::StoredTable;
use block_codec::places::TABLES;
use std::alloc::Global;
use std::marker::Model;
use tc_base::NoMemory;

/// The tables of a hook, in order, with the slots of their masks. The room for all tables that a hook can
/// have is taken at once.
#[derive(Drop)]
pub struct StoredTables {
    items: Vec<StoredTable>,
}

impl Model for StoredTables {
    ghost use Rattle.std.specs.Prelude.{◌≤◌, List, vec_capacity};
    ghost use Rattle.block_codec.specs.declared.places.TheConstants.{TABLES};
    ghost use Rattle.block_codec.specs.declared.table.StoredTable.{StoredTable};

    ghost Value = { List StoredTable };

    ghost view = { λ t. t.items.items };

    ghost invariant = { λ t. TABLES ≤ vec_capacity t.items };
}

impl StoredTables {
    /// Takes the room for the tables of a hook. There are none. No other call takes memory.
    ///
    /// `NoMemory`: memory was refused.
    pub fn with_room(alloc: Global) -> Result<StoredTables, NoMemory>
        ensures { IfOk result (λ t. t ≡ []) }
    {
        Ok(StoredTables {
            items: Vec::with_capacity(alloc, TABLES as usize)?,
        })
    }

    /// Lets all tables go.
    pub fn clear(&mut self)
        ensures { self.new ≡ [] }
    {
        self.items.clear();
    }

    /// Puts a table behind those that are there, fewer than a hook can have.
    pub fn push(&mut self, table: StoredTable)
        requires { length self.old < TABLES }
        ensures { self.new ≡ self.old ++ table ∷ [] }
    {
        match self.items.push(table) {
            Ok(()) => {}
            Err(_) => unreachable!(),
        }
    }

    /// The items, in order.
    pub fn as_slice(&self) -> &[StoredTable]
        ensures { result.now ≡ self.now }
    {
        &self.items
    }
}
