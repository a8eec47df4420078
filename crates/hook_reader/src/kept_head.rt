//! A head that was read before.
ghost use Rattle.std.specs.Prelude.{◌≡◌, ◌<◌, ◌≤◌, ◌++◌, ◌∷◌, [], length};
ghost use Rattle.visit_room.specs.declared.limits.TheConstants.{HEAD_TABLES};

use crate::same_heads::are_same_heads;
use std::alloc::Global;
use std::marker::Model;
use tc_base::{NoMemory, Point};
use visit_room::{HeadRoom, TableHead};

// Puts a table behind those that are there.
fn push_head(into: &mut HeadRoom, head: &TableHead)
    requires { length into.old.tables < HEAD_TABLES }
    ensures { into.new.tables ≡ into.old.tables ++ head.now ∷ [] }
{
    into.push(head.serial, head.chain, head.pref, head.protocol);
    for mask in head.masks.as_slice() {
        into.push_mask(*mask);
    }
}

// The same tables, in place of those that were there.
fn copy_heads(from: &HeadRoom, into: &mut HeadRoom)
    requires { length from.now.tables ≤ HEAD_TABLES }
    ensures { into.new.tables ≡ from.now.tables }
{
    into.clear();
    let heads = from.heads();
    for place in 0..heads.len() {
        push_head(into, &heads[place]);
    }
}

/// The tables of a hook as they were last read, and the stamp that the hook's root then had. At first there
/// are no tables, with the stamp 0: so is the root before any commit.
#[derive(Drop)]
pub(crate) struct KeptHead {
    stamp: Point,
    tables: HeadRoom,
}

impl Model for KeptHead {
    ghost use Rattle.visit_room.specs.declared.limits.TheConstants.{HEAD_TABLES};
    ghost use Rattle.std.specs.Prelude.{◌≤◌, length};
    ghost use Rattle.hook_reader.specs.KeptHeads.{Kept};

    ghost Value = { Kept };

    ghost view = { λ k. record { stamp = k.stamp; tables = k.tables.tables } };

    ghost invariant = { λ k. length k.tables.tables ≤ HEAD_TABLES };
}

impl KeptHead {
    ghost use Rattle.visit_room.specs.declared.limits.TheConstants.{HEAD_TABLES};
    ghost use Rattle.std.specs.Prelude.{◌≡◌, ◌≤◌, [], length, IfOk};

    /// Takes the room. No other call takes memory.
    pub(crate) fn with_room(alloc: Global) -> Result<KeptHead, NoMemory>
        ensures { IfOk result (λ kept. kept ≡ record { stamp = 0; tables = [] }) }
    {
        Ok(KeptHead {
            stamp: 0,
            tables: HeadRoom::with_room(alloc)?,
        })
    }

    /// The stamp.
    pub(crate) fn stamp(&self) -> Point
        ensures { result ≡ self.now.stamp }
    {
        self.stamp
    }

    /// Puts the tables into the room, in place of those that are there.
    ///
    /// Walks over a hook at rest get the same tables each time. So those of the last walk, which stand by,
    /// are looked at first: that costs less than copying them.
    pub(crate) fn tell(&self, into: &mut HeadRoom)
        ensures { into.new.tables ≡ self.now.tables }
    {
        into.recall();
        if !are_same_heads(self.tables.heads(), into.heads()) {
            copy_heads(&self.tables, into);
        }
    }

    /// Keeps other tables, with their stamp.
    pub(crate) fn keep(&mut self, stamp: Point, tables: &HeadRoom)
        requires { length tables.now.tables ≤ HEAD_TABLES }
        ensures { self.new ≡ record { stamp = stamp; tables = tables.now.tables } }
    {
        self.stamp = stamp;
        copy_heads(tables, &mut self.tables);
    }
}
