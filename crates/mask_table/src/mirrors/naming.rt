//! A root that comes to name a chain that is kept.
ghost use Rattle.std.specs.Prelude.{◌≡◌, ℕ, ◌<◌, ◌≤◌, ◌++◌, ◌∷◌, [], List};
ghost use Rattle.pin_store.specs.Layout.{commit_of};
ghost use Rattle.pin_store.specs.Sheets.{base_of};
ghost use Rattle.pin_store.specs.Calls.{seen_by, sheet_of, IsSeatOf};
ghost use Rattle.block_codec.specs.Shapes.{HasPool};
ghost use Rattle.mask_table.specs.OfMirrors.Kept.{Spells, HoldsChain};

use crate::mirrors::gathering::gather;
use crate::mirrors::mirror::Mirror;
use crate::mirrors::number_room::NumberRoom;
use pin_store::{Store, Writer};
use store_history::{EditName, Law};
use tc_base::Point;

/// Makes the one commit by which a root names the chain that begins with a number. The commit carries the
/// edit that `E` names, if there is a number for it.
pub fn name_chain<L: Law, E: EditName<L::Entry>>(
    room: &mut NumberRoom,
    mirror: &Mirror,
    writer: &mut Writer<L>,
    store: &Store<L>,
    root: u32,
    number: u32,
    stamp: Point,
    edit: Option<Point>,
)
    requires store { IsSeatOf store.now writer.old.place }
    requires shape { HasPool store.now.shape.words store.now.shape.blocks }
    requires root { root < store.now.shape.roots }
    requires chain { (size bucket : ℕ) × (blocks : List ℕ)
        × HoldsChain mirror.now store.now.shape (sheet_of writer.old.place).cells size bucket number blocks }
    requires lawful { (blocks : List ℕ) → Spells mirror.now.next.items number blocks → L.keeps
        (seen_by writer.old.place
        ++ commit_of store.now.shape (sheet_of writer.old.place).cells root blocks stamp edit E.edit ∷ [])
        (base_of (sheet_of writer.old.place)) }
    ensures store { IsSeatOf store.now writer.new.place }
    ensures seen { (blocks : List ℕ) → Spells mirror.now.next.items number blocks → seen_by writer.new.place
        ≡ seen_by writer.old.place
        ++ commit_of store.now.shape (sheet_of writer.old.place).cells root blocks stamp edit E.edit ∷ [] }
    ensures sheet { sheet_of writer.new.place ≡ sheet_of writer.old.place }
{
    room.clear();
    gather(room, &mirror.next, number);
    writer.commit::<E>(store, root, room.as_slice(), stamp, edit);
}
