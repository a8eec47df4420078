//! Tidying.
ghost use Rattle.std.specs.Prelude.{◌≡◌, ◌<◌, ◌≤◌, ◌+◌, ◌^◌, ◌⊎◌, ◌++◌, ℕ, List, [], length, true};
ghost use Rattle.store_history.specs.declared.places.TheConstants.{ROOTS};
ghost use Rattle.pin_store.specs.declared.scan.Scan.TheVariants.{Quiet};
ghost use Rattle.pin_store.specs.Sheets.{base_of};
ghost use Rattle.pin_store.specs.Calls.{seen_by, sheet_of, IsSeatOf};
ghost use Rattle.pin_store.specs.Found.{FoundIn};
ghost use Rattle.hook_store_law.specs.Kept.{IsKeptAt};
ghost use Rattle.desk_pools.specs.Pools.{gone_roots, ArePools, IsNothingLeft};
ghost use Rattle.desk_pools.specs.OfTidying.Tidied.{emptying, IsTwiceIn, Empties, AreTidied};

use crate::Pools;
use crate::tidying::emptying::empty_each;
use crate::tidying::settling::settle;
use hook_store_law::HookLaw;
use pin_store::{Scan, Store, Writer};
use store_history::places::{ACTION_ROOTS, BUCKET_ROOTS, MASK_ROOTS, ROW_BUCKETS};
use tc_base::Point;

// All commits are before the base. Empties the roots of all that left.
fn empty_gone(writer: &mut Writer<HookLaw>, store: &Store<HookLaw>, pools: &Pools, point: Point)
    requires store { IsSeatOf store.now writer.old.place }
    requires shape { (ROOTS ≤ store.now.shape.roots) × (store.now.shape.roots < 4294967296) }
    requires lawful { IsKeptAt (seen_by writer.old.place) (base_of (sheet_of writer.old.place)) point }
    requires quiet { base_of (sheet_of writer.old.place) ≡ length (seen_by writer.old.place) }
    requires pools { ArePools pools.now (seen_by writer.old.place) (base_of (sheet_of writer.old.place)) }
    ensures store { IsSeatOf store.now writer.new.place }
    ensures seen { seen_by writer.new.place
        ≡ seen_by writer.old.place ++ emptying point (gone_roots pools.now) }
    ensures sheet { sheet_of writer.new.place ≡ sheet_of writer.old.place }
{
    empty_each(writer, store, pools.masks.gone(), MASK_ROOTS, 1, point);
    empty_each(writer, store, pools.actions.gone(), ACTION_ROOTS, 1, point);
    empty_each(
        writer,
        store,
        pools.rows.gone(),
        BUCKET_ROOTS,
        ROW_BUCKETS,
        point,
    );
}

// All that left is free, but for blocks.
fn free_numbers(pools: &mut Pools)
    ensures rows { (pools.new.rows.free ≡ pools.old.rows.free ++ pools.old.rows.left)
        × (pools.new.rows.left ≡ []) × (pools.new.rows.size ≡ pools.old.rows.size) }
    ensures masks { (pools.new.masks.free ≡ pools.old.masks.free ++ pools.old.masks.left)
        × (pools.new.masks.left ≡ []) × (pools.new.masks.size ≡ pools.old.masks.size) }
    ensures actions { (pools.new.actions.free ≡ pools.old.actions.free ++ pools.old.actions.left)
        × (pools.new.actions.left ≡ []) × (pools.new.actions.size ≡ pools.old.actions.size) }
    ensures blocks { pools.new.blocks ≡ pools.old.blocks }
    ensures places { (pools.new.ingress ≡ pools.old.ingress) × (pools.new.egress ≡ pools.old.egress) }
{
    pools.masks.free_all();
    pools.actions.free_all();
    pools.rows.free_all();
}

// The blocks that left, and the places that aren't active, are free.
fn free_blocks(pools: &mut Pools)
    ensures blocks { (pools.new.blocks.free ≡ pools.old.blocks.free ++ pools.old.blocks.left)
        × (pools.new.blocks.left ≡ []) × (pools.new.blocks.size ≡ pools.old.blocks.size) }
    ensures places { (pools.new.ingress ≡ record { place = pools.old.ingress.place; is_free = true })
        × (pools.new.egress ≡ record { place = pools.old.egress.place; is_free = true }) }
    ensures rest { (pools.new.rows ≡ pools.old.rows) × (pools.new.masks ≡ pools.old.masks)
        × (pools.new.actions ≡ pools.old.actions) }
{
    pools.blocks.free_all();
    pools.ingress.is_free = true;
    pools.egress.is_free = true;
}

/// Begins an epoch and scans the readers twice. Where the second scan is quiet, it empties the roots of all
/// that left, begins a second epoch and scans twice again. Where that is quiet too, all that left is free.
///
/// `point` is the number of edits that the commits carry; what is emptied has it as its stamp. The answer is
/// that of the last scan: where it isn't `Quiet`, it names the first reader that is in the way.
pub fn tidy(
    writer: &mut Writer<HookLaw>,
    store: &Store<HookLaw>,
    pools: &mut Pools,
    point: Point,
) -> Scan
    requires store { IsSeatOf store.now writer.old.place }
    requires shape { (ROOTS ≤ store.now.shape.roots) × (store.now.shape.roots < 4294967296) }
    requires few { (sheet_of writer.old.place).epoch + 1 < 2 ^ 62 }
    requires lawful { IsKeptAt (seen_by writer.old.place) (base_of (sheet_of writer.old.place)) point }
    requires pools { ArePools pools.old (seen_by writer.old.place) (base_of (sheet_of writer.old.place)) }
    ensures store { IsSeatOf store.now writer.new.place }
    ensures seen { Empties pools.old (seen_by writer.old.place) point (seen_by writer.new.place) }
    ensures lawful { IsKeptAt (seen_by writer.new.place) (base_of (sheet_of writer.new.place)) point }
    ensures pools { ArePools pools.new (seen_by writer.new.place) (base_of (sheet_of writer.new.place)) }
    ensures tidied { AreTidied pools.old pools.new }
    ensures quiet { result ≡ Quiet → IsNothingLeft pools.new }
    ensures twice { IsTwiceIn (sheet_of writer.new.place).notes result }
    ensures found { FoundIn (sheet_of writer.new.place).notes result }
    ensures cells { (sheet_of writer.new.place).cells ≡ (sheet_of writer.old.place).cells }
    ensures epochs { ((sheet_of writer.new.place).epoch ≡ (sheet_of writer.old.place).epoch + 1)
        ⊎ ((sheet_of writer.new.place).epoch ≡ (sheet_of writer.old.place).epoch + 2) }
    ensures base { base_of (sheet_of writer.old.place) ≤ base_of (sheet_of writer.new.place) }
{
    let first = settle(writer, store);
    if first != Scan::Quiet {
        return first;
    }
    empty_gone(writer, store, pools, point);
    free_numbers(pools);
    let second = settle(writer, store);
    if second == Scan::Quiet {
        free_blocks(pools);
    }
    second
}
