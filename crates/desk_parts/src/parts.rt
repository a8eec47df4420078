//! The parts of a desk.
ghost use Rattle.std.specs.Prelude.{◌≡◌, [], IfOk};
ghost use Rattle.tc_base.specs.declared.hook.Hook.TheVariants.{Ingress, Egress};

use crate::shape::HOOK_SHAPE;
use desk_actions::ActionPlaces;
use desk_actions::ledgers::Ledger;
use desk_masks::HookTables;
use desk_pools::Pools;
use filter_lists::Lists;
use hook_store_law::HookLaw;
use mask_writer::MaskWriter;
use miniq_pair::{HeadPair, StoredTables};
use pin_store::Writer;
use std::alloc::Global;
use tc_base::{Hook, NoMemory};

/// The lists with the store's writer, the pools, the places of actions, the writer of masks, and the tables
/// of each hook.
#[derive(Drop)]
pub struct Parts {
    pub ledger: Ledger,
    pub pools: Pools,
    pub actions: ActionPlaces,
    pub masks: MaskWriter,
    pub ingress: HookTables,
    pub egress: HookTables,
    /// Where the next tables of a hook are laid out before they are its.
    pub room: StoredTables,
}

// The tables of a hook that has none.
fn no_tables(alloc: Global, hook: Hook) -> Result<HookTables, NoMemory>
    ensures pair { IfOk result (λ t. (t.pair.hook ≡ hook) × (t.pair.active ≡ 0)) }
    ensures tables { IfOk result (λ t. t.tables ≡ []) }
{
    Ok(HookTables {
        pair: HeadPair::new(hook),
        tables: StoredTables::with_room(alloc)?,
    })
}

// The tables of both hooks, and room for the next ones.
#[derive(Drop)]
struct Tables {
    ingress: HookTables,
    egress: HookTables,
    room: StoredTables,
}

impl Tables {
    // No hook has any.
    fn with_room(alloc: Global) -> Result<Tables, NoMemory>
        ensures ingress { IfOk result (λ t. (t.ingress.pair.hook ≡ Ingress) × (t.ingress.pair.active ≡ 0)
            × (t.ingress.tables ≡ [])) }
        ensures egress { IfOk result (λ t. (t.egress.pair.hook ≡ Egress) × (t.egress.pair.active ≡ 0)
            × (t.egress.tables ≡ [])) }
    {
        Ok(Tables {
            ingress: no_tables(alloc, Hook::Ingress)?,
            egress: no_tables(alloc, Hook::Egress)?,
            room: StoredTables::with_room(alloc)?,
        })
    }
}

impl Parts {
    ghost use Rattle.pin_store.specs.Sheets.{base_of};
    ghost use Rattle.pin_store.specs.Calls.{seen_by, sheet_of};
    ghost use Rattle.filter_state.specs.States.{no_state};
    ghost use Rattle.filter_lists.specs.Spells.{Spells};
    ghost use Rattle.desk_pools.specs.Pools.{IsNothingLeft, AreAllFree};
    ghost use Rattle.desk_parts.specs.Desk.{shape_of, hook_shape, IsDesk};

    /// The parts of the desk of a new store: no qdisc, and nothing made. It takes all the room that they ever
    /// need, but for what the lists take as they grow.
    ///
    /// `NoMemory`: memory was refused.
    pub fn new(alloc: Global, writer: Writer<HookLaw>) -> Result<Parts, NoMemory>
        requires shape { shape_of writer.place ≡ hook_shape }
        requires first { (seen_by writer.place ≡ []) × (base_of (sheet_of writer.place) ≡ 0) }
        ensures desk { IfOk result IsDesk }
        ensures place { IfOk result (λ p. p.ledger.writer.place ≡ writer.place) }
        ensures lists { IfOk result (λ p. Spells p.ledger.lists no_state) }
        ensures none { IfOk result (λ p. IsNothingLeft p.pools) }
        ensures all { IfOk result (λ p. AreAllFree p.pools) }
    {
        // What has the fewest parts comes first: where memory is refused, all that was made before is
        // dropped.
        let tables = Tables::with_room(alloc)?;
        let actions = ActionPlaces::with_room(alloc)?;
        let masks = MaskWriter::with_room(alloc, HOOK_SHAPE)?;
        let pools = Pools::new(alloc)?;
        Ok(Parts {
            ledger: Ledger {
                lists: Lists::new(alloc),
                writer,
                point: 0,
            },
            pools,
            actions,
            masks,
            ingress: tables.ingress,
            egress: tables.egress,
            room: tables.room,
        })
    }
}
