//! Masks leave their old slots.
ghost use Rattle.std.specs.Prelude.{[]};
ghost use Rattle.desk_parts.specs.Desk.{AreSized};
ghost use Rattle.shared_hook.specs.OfDeskEdits.Parting.{HaveLeft, IsParting};
ghost use Rattle.std.specs.Prelude.{map};
ghost use Rattle.visit_room.specs.declared.names.MaskName.{MaskName};
ghost use Rattle.shared_hook.specs.OfDeskEdits.OfMoves.Moves.{old_slots, MayPartAll};

use crate::desk_edits::part_with;
use desk_pools::Pools;
use mask_writer::MaskWriter;

/// The masks at a slot and at another, where there is one, are gone: they leave the writer, and what they
/// have leaves the pools.
pub(crate) fn part_with_old(masks: &mut MaskWriter, pools: &mut Pools, slot: u32, into: Option<u32>)
    requires may { MayPartAll masks.old pools.old (old_slots slot into) }
    requires sized { AreSized pools.old }
    ensures parting { (at : MayPartAll masks.old pools.old (old_slots slot into))
        → IsParting masks.new pools.new at.shape at.cells at.h at.b at.count [] [] }
    ensures left { (at : MayPartAll masks.old pools.old (old_slots slot into))
        → HaveLeft at.count pools.old pools.new (map (λ (name : MaskName). name.serial) at.names) }
    ensures sized { AreSized pools.new }
{
    part_with(masks, pools, slot);
    if let Some(other) = into {
        part_with(masks, pools, other);
    }
}
