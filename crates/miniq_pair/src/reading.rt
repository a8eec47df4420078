//! A reader's visit of a head.
ghost use Rattle.block_codec.specs.declared.places.TheConstants.{TABLES};
ghost use Rattle.std.specs.Prelude.{◌≡◌, ◌++◌, ◌∷◌, [], ◌+◌, ◌*◌, ◌<◌, ◌≤◌, length, option_map, Some};
ghost use mathlib.Core.List.{IsPrefix};
ghost use Rattle.pin_store.specs.Calls.{seen_by, floor_start, loads_of, IsInside, IsSeatOf, IsSameReader};
ghost use Rattle.store_history.specs.History.{root_of};
ghost use Rattle.visit_room.specs.Heads.{last_masks};
ghost use Rattle.block_chain.specs.Ways.{block_words};
ghost use Rattle.miniq_pair.specs.Heads.{told_of, hook_number, head_root, HeadTold};

use crate::law::HeadLaw;
use block_chain::Walk;
use block_codec::StoredTable;
use block_codec::readings::table_in;
use pin_store::{Reader, Steps, Store};
use std::sync::ledger::Ledger;
use store_history::places::HEAD_ROOTS;
use tc_base::{Hook, Point};
use visit_room::{HeadRoom, MaskName};

// The number of a hook: ingress 0, egress 1.
pub(crate) fn hook_number(hook: Hook) -> u32
    ensures { result ≡ hook_number hook }
{
    match hook {
        Hook::Ingress => 0,
        Hook::Egress => 1,
    }
}

// Puts a table behind those that are there.
fn push_table(into: &mut HeadRoom, table: &StoredTable)
    requires { length into.old.tables < TABLES }
    ensures { into.new.tables ≡ into.old.tables ++ told_of table.now ∷ [] }
{
    into.push(table.serial, table.chain, table.pref, table.protocol);
    for mask in table.masks.items() {
        into.push_mask(*mask);
    }
}

/// Puts the tables of a hook into the room, in their order, with the slots of their masks, and answers the
/// point from which on they are the hook's.
///
/// They are the tables that the hook's root names at the end of what the reader has then seen, and the point
/// is that root's stamp. Each table costs the loads of a block, and the root one; the reader's seat counts
/// them, and `steps` counts the same.
pub fn head<L: HeadLaw, M: Ledger>(
    reader: &mut Reader<L>,
    store: &Store<L>,
    hook: Hook,
    into: &mut HeadRoom,
    steps: &mut Steps<M>,
) -> Point
    requires store { IsSeatOf store.now reader.old.place }
    requires shape { (store.now.shape.words ≡ block_words) × (3 ≤ store.now.shape.roots) }
    requires inside { IsInside reader.old.place }
    ensures store { IsSeatOf store.now reader.new.place }
    ensures same { IsSameReader reader.old.place reader.new.place }
    ensures longer { IsPrefix (seen_by reader.old.place) (seen_by reader.new.place) }
    ensures lawful { L.keeps (seen_by reader.new.place) (floor_start reader.new.place) }
    ensures stamp { result ≡ (root_of (seen_by reader.new.place) (head_root hook)).stamp }
    ensures loads { loads_of reader.new.place
        ≡ loads_of reader.old.place + 1 + block_words * length into.new.tables }
    ensures steps { steps.new + loads_of reader.old.place ≡ steps.old + loads_of reader.new.place }
    ensures told { HeadTold (λ k. L.heads (seen_by reader.new.place) k hook)
        (seen_by reader.new.place) hook into.new.tables result }
{
    into.clear();
    let (mut walk, stamp) = Walk::along(reader, store, HEAD_ROOTS + hook_number(hook), steps);
    let mut words = [0; 40];
    while walk.next_block(reader, store, &mut words, steps) {
        match table_in(&words) {
            Some(table) => push_table(into, &table),
            None => unreachable!(),
        }
    }
    stamp
}
