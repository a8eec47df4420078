//! The writer's part.
ghost use Rattle.store_history.specs.declared.places.TheConstants.{ACTION_SLOTS, ROOTS};
ghost use Rattle.block_codec.specs.declared.places.TheConstants.{BLOCK_WORDS};
ghost use Rattle.std.specs.Prelude.{◌≡◌, ◌≢◌, ◌<◌, ◌≤◌, ◌∷◌, ◌++◌, ℕ, []};
ghost use Rattle.pin_store.specs.Layout.{block_words};
ghost use Rattle.pin_store.specs.Sheets.{base_of, IsSameButCells};
ghost use Rattle.pin_store.specs.Calls.{seen_by, sheet_of, IsSeatOf, IsUnnamed};
ghost use Rattle.block_codec.specs.Actions.{IsStorableAction};
ghost use Rattle.desk_actions.specs.OfRoots.Records.{action_block, action_commit};

use block_codec::{StoredAction, write_action};
use pin_store::{Store, Writer};
use store_history::places::ACTION_ROOTS;
use store_history::{EditName, Law};
use tc_base::Point;

/// Puts an action's record into a block, and makes the one commit by which the root of the slot names it.
/// With a number in `edit` the commit carries the edit that `E` names, under this number.
///
/// The block may be in no chain that was named since the base, and the law must hold of all commits with this
/// one.
pub fn put_action<L: Law, E: EditName<L::Entry>>(
    writer: &mut Writer<L>,
    store: &Store<L>,
    slot: u32,
    at: u32,
    action: &StoredAction,
    stamp: Point,
    edit: Option<Point>,
)
    requires store { IsSeatOf store.now writer.old.place }
    requires shape { (store.now.shape.words ≡ BLOCK_WORDS) × (ROOTS ≤ store.now.shape.roots) }
    requires slot { slot < ACTION_SLOTS }
    requires within { at < store.now.shape.blocks }
    requires storable { IsStorableAction action.now }
    requires free { IsUnnamed (base_of (sheet_of writer.old.place)) (seen_by writer.old.place) at }
    requires lawful { L.keeps (seen_by writer.old.place
        ++ action_commit slot at action.now stamp edit E.edit ∷ [])
        (base_of (sheet_of writer.old.place)) }
    ensures store { IsSeatOf store.now writer.new.place }
    ensures seen { seen_by writer.new.place
        ≡ seen_by writer.old.place ++ action_commit slot at action.now stamp edit E.edit ∷ [] }
    ensures sheet { IsSameButCells (sheet_of writer.old.place) (sheet_of writer.new.place) }
    ensures words { block_words store.now.shape (sheet_of writer.new.place).cells at
        ≡ action_block action.now }
    ensures others { (other : ℕ) → other ≢ at → other < store.now.shape.blocks
        → block_words store.now.shape (sheet_of writer.new.place).cells other
        ≡ block_words store.now.shape (sheet_of writer.old.place).cells other }
{
    let mut words = [0; 40];
    write_action(action, None, &mut words);
    writer.fill(store, at, &words);
    writer.commit::<E>(store, ACTION_ROOTS + slot, &[at], stamp, edit);
}
