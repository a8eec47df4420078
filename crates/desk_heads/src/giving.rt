//! A hook is given its tables anew.
ghost use Rattle.std.specs.Prelude.{◌≡◌, ◌≢◌, ◌<◌, ◌≤◌, ◌+◌, ◌^◌, ◌⊎◌, ◌++◌, ◌∷◌, ℕ, List, [], length, All};
ghost use Rattle.tc_base.specs.declared.hook.Hook.{Hook};
ghost use Rattle.store_history.specs.declared.history.Commit.{Commit};
ghost use Rattle.store_history.specs.History.{root_of, edits_of};
ghost use Rattle.pin_store.specs.Layout.{block_words};
ghost use Rattle.pin_store.specs.Sheets.{base_of, IsSameButCells};
ghost use Rattle.pin_store.specs.Calls.{seen_by, sheet_of, IsSeatOf, IsUnnamed};
ghost use Rattle.store_history.specs.declared.places.TheConstants.{POOL_BLOCKS, ROOTS};
ghost use Rattle.block_codec.specs.declared.places.TheConstants.{BLOCKS, BLOCK_WORDS};
ghost use Rattle.block_codec.specs.declared.places.TheConstants.{TABLES};
ghost use Rattle.filter_lists.specs.Spells.{Spells};
ghost use Rattle.miniq_pair.specs.Pairs.{first_block_of, other_place, swap_commit};
ghost use Rattle.hook_law.specs.Meaning.{point_of};
ghost use Rattle.hook_law.specs.Keeping.{IsAtRest};
ghost use Rattle.hook_store_law.specs.Stated.{hook_meaning};
ghost use Rattle.hook_store_law.specs.Blocks.{hook_codec};
ghost use Rattle.hook_store_law.specs.Kept.{KeepsHook};
ghost use Rattle.hook_store_law.specs.OfEdits.Premises.{next};
ghost use Rattle.desk_masks.specs.Tables.{HasTables};
ghost use Rattle.desk_heads.specs.OfHeadCommits.Built.{IsGiven};
ghost use Rattle.desk_heads.specs.Gives.{GivesTables};

use crate::telling::tell_tables;
use desk_masks::HookTables;
use filter_lists::{Edit, Lists};
use hook_store_law::{HookLaw, HookStore};
use miniq_pair::StoredTables;
use pin_store::Writer;
use std::mem;
use store_history::EditName;
use tc_base::{Hook, Point};
use visit_room::MaskName;

/// Gives a hook the tables of the lists, with the slots of the masks that were built for the edit and of
/// those that stay, by the one commit that carries the edit. The tables that were kept come to be the room
/// for the next ones.
pub fn give_tables<E: EditName<Edit>>(
    heads: &mut HookTables,
    room: &mut StoredTables,
    writer: &mut Writer<HookLaw>,
    store: &HookStore,
    lists: &Lists,
    hook: Hook,
    built: &[MaskName],
    number: Point,
)
    requires store { IsSeatOf store.now writer.old.place }
    requires shape { (store.now.shape.words ≡ BLOCK_WORDS) × (BLOCKS ≤ store.now.shape.blocks)
        × (ROOTS ≤ store.now.shape.roots) }
    requires number { number ≡ point_of (seen_by writer.old.place) + 1 }
    requires lawful { KeepsHook (seen_by writer.old.place) (base_of (sheet_of writer.old.place)) }
    requires gives { GivesTables (seen_by writer.old.place) (base_of (sheet_of writer.old.place)) E.edit hook
        built.now }
    requires lists { Spells lists.now (next (seen_by writer.old.place) E.edit) }
    requires tables { HasTables hook heads.old (seen_by writer.old.place) }
    requires idle { (at : ℕ) → at < TABLES
        → IsUnnamed (base_of (sheet_of writer.old.place)) (seen_by writer.old.place)
        (first_block_of hook (other_place heads.old.pair.active) + at) }
    ensures store { IsSeatOf store.now writer.new.place }
    ensures sheet { IsSameButCells (sheet_of writer.old.place) (sheet_of writer.new.place) }
    ensures others { (block : ℕ) → block < POOL_BLOCKS
        → block_words store.now.shape (sheet_of writer.new.place).cells block
        ≡ block_words store.now.shape (sheet_of writer.old.place).cells block }
    ensures seen { seen_by writer.new.place ≡ seen_by writer.old.place
        ++ swap_commit hook (other_place heads.old.pair.active) heads.new.tables number E.edit ∷ [] }
    ensures tables { HasTables hook heads.new (seen_by writer.new.place) }
    ensures active { heads.new.pair.active ≡ other_place heads.old.pair.active }
    ensures room { room.new ≡ heads.old.tables }
    ensures given { IsGiven (seen_by writer.old.place) (base_of (sheet_of writer.old.place)) E.edit hook
        built.now heads.new.tables }
{
    room.clear();
    tell_tables(room, lists, hook, heads.tables.as_slice(), built);
    heads.pair.swap::<HookLaw, E>(writer, store, room, number);
    mem::swap(&mut heads.tables, room);
}
