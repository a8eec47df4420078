//! Room for the tables of a hook.
ghost use Rattle.std.specs.Prelude.{◌≡◌};
ghost use Rattle.visit_room.specs.declared.limits.TheConstants.{HEAD_MASKS};
ghost use Rattle.visit_room.specs.Heads.{with_mask_behind, IsBelow, last_masks};

use crate::limits::HEAD_TABLES;
use crate::names::MaskName;
use crate::table_head::{MaskNames, TableHead};
use std::alloc::Global;
use std::marker::Model;
use tc_base::{NoMemory, Proto};

/// The tables of a hook in their order: `HEAD_TABLES` at most, each with `HEAD_MASKS` masks at most.
///
/// Tables that were let go stand by until another is put, and `recall` brings them back: walks over the same
/// tables then need not be told them again and again. Contracts see the tables that are told, and beside them
/// those that stand by (`spare`).
#[derive(Drop)]
pub struct HeadRoom {
    heads: Vec<TableHead>,
    is_clear: bool,
}

impl Model for HeadRoom {
    ghost use Rattle.visit_room.specs.declared.limits.TheConstants.{HEAD_TABLES};
    ghost use Rattle.std.specs.Prelude.{◌≤◌, [], if◌then◌else◌, vec_capacity};
    ghost use Rattle.visit_room.specs.Heads.{Heads};

    ghost Value = { Heads };

    ghost view = { λ r. record {
      tables = if r.is_clear then [] else r.heads.items;
      spare = if r.is_clear then r.heads.items else [];
    } };

    ghost invariant = { λ r. HEAD_TABLES ≤ vec_capacity r.heads };
}

impl HeadRoom {
    ghost use Rattle.visit_room.specs.declared.limits.TheConstants.{HEAD_MASKS, HEAD_TABLES};
    ghost use Rattle.std.specs.Prelude.{◌≡◌, ◌<◌, ◌++◌, ◌∷◌, [], length, IfOk};
    ghost use Rattle.visit_room.specs.Heads.{bare_head, with_mask_behind, IsBelow, last_masks};

    /// Takes the room. No other call takes memory.
    pub fn with_room(alloc: Global) -> Result<HeadRoom, NoMemory>
        ensures { IfOk result (λ r. r ≡ record { tables = []; spare = [] }) }
    {
        Ok(HeadRoom {
            heads: Vec::with_capacity(alloc, HEAD_TABLES)?,
            is_clear: true,
        })
    }

    /// Lets all tables go: they stand by. Where there is none, those that stand by stay.
    pub fn clear(&mut self)
        ensures tables { self.new.tables ≡ [] }
        ensures spare { self.new.spare ≡ self.old.tables ++ self.old.spare }
    {
        self.is_clear = true;
    }

    /// Brings back the tables that stand by: those that were let go last, if no other was put since. A room
    /// that has tables keeps them.
    pub fn recall(&mut self)
        ensures tables { self.new.tables ≡ self.old.tables ++ self.old.spare }
        ensures spare { self.new.spare ≡ [] }
    {
        // What was let go is still there.
        self.is_clear = false;
    }

    /// Puts a table without masks behind those that are there, fewer than `HEAD_TABLES`.
    pub fn push(&mut self, serial: u32, chain: u32, pref: u32, protocol: Proto)
        requires { length self.old.tables < HEAD_TABLES }
        ensures tables { self.new.tables ≡ self.old.tables ++ (bare_head serial chain pref protocol ∷ []) }
        ensures spare { self.new.spare ≡ [] }
    {
        let head = TableHead {
            serial,
            chain,
            pref,
            protocol,
            masks: MaskNames::new(),
        };
        if self.is_clear {
            self.heads.clear();
            self.is_clear = false;
        }
        match self.heads.push(head) {
            Ok(()) => {}
            Err(_) => unreachable!(),
        }
    }

    /// Puts a mask behind those of the last table, fewer than `HEAD_MASKS`.
    pub fn push_mask(&mut self, mask: MaskName)
        requires { IsBelow HEAD_MASKS (last_masks self.old.tables) }
        ensures tables { self.new.tables ≡ with_mask_behind mask self.old.tables }
        ensures spare { self.new.spare ≡ [] }
    {
        if self.is_clear {
            unreachable!();
        }
        push_to_last(&mut self.heads, mask);
    }

    /// The tables, in order.
    pub fn heads(&self) -> &[TableHead]
        ensures { result.now ≡ self.now.tables }
    {
        if self.is_clear { &[] } else { &self.heads }
    }
}

// Puts a mask behind those of the last table.
fn push_to_last(heads: &mut [TableHead], mask: MaskName)
    requires { IsBelow HEAD_MASKS (last_masks heads.old) }
    ensures { heads.new ≡ with_mask_behind mask heads.old }
{
    match heads.last_mut() {
        Some(head) => head.masks.push(mask),
        None => unreachable!(),
    }
}
