//! How building begins, and what the head's commit asks once it is done.
ghost use Rattle.std.specs.Prelude.{◌≡◌, ℕ, List, []};
ghost use Rattle.tc_base.specs.declared.hook.Hook.{Hook};
ghost use Rattle.visit_room.specs.declared.names.MaskName.{MaskName};
ghost use Rattle.store_history.specs.declared.history.Commit.{Commit};
ghost use Rattle.pin_store.specs.declared.shape.Shape.{Shape};
ghost use Rattle.filter_state.specs.declared.edit.Edit.{Edit};
ghost use Rattle.hook_store_law.specs.OfEffects.Parts.{Stands};
ghost use Rattle.mask_writer.specs.Masks.{Masks};
ghost use Rattle.miniq_pair.specs.Heads.{hook_number};
ghost use Rattle.hook_law.specs.Keeping.{IsAtRest};
ghost use Rattle.hook_store_law.specs.Stated.{hook_meaning, tables_at};
ghost use Rattle.hook_store_law.specs.Blocks.{hook_codec};
ghost use Rattle.hook_store_law.specs.OfEdits.Premises.{now, next, LeavesOtherHook};
ghost use Rattle.desk_heads.specs.OfHeadCommits.Listed.{HasSerial};
ghost use Rattle.desk_heads.specs.OfHeadCommits.Raised.{IsReady};
ghost use Rattle.desk_heads.specs.OfHeadCommits.Built.{IsBuilt, IsConcerned};
ghost use Rattle.desk_masks.specs.Masks.{HasMasks};
ghost use Rattle.desk_heads.specs.Gives.{GivesTables};
ghost use Rattle.desk_heads.specs.OfMoves.Builds.{HoldsBuilt};

/// Before the first mask is built, none is. Once all are that the edit needs, the hook may be given its
/// tables: the edit changes none but those that were built and those that go, and each that was built stands
/// after it, and where it stood before, it did on this hook.
pub fn built_masks()
    ensures begins { (masks : Masks) (shape : Shape) (cells : List ℕ) (h : List (Commit Edit)) (b : ℕ)
        (y : Edit) → HasMasks masks shape cells h → HoldsBuilt masks shape cells h b y [] }
    ensures gives { (masks : Masks) (shape : Shape) (cells : List ℕ) (h : List (Commit Edit)) (b : ℕ)
        (y : Edit) (hook : Hook) (built : List MaskName)
        → IsReady h b y → IsAtRest hook_meaning hook_codec h → HoldsBuilt masks shape cells h b y built
        → LeavesOtherHook hook (IsConcerned h y built) (now h) (next h y)
        → ((mask slot : ℕ) → IsBuilt built mask slot → Stands (next h y) mask)
        → ((mask slot : ℕ) → IsBuilt built mask slot → Stands (now h) mask
        → HasSerial (tables_at (now h) (hook_number hook)) mask)
        → GivesTables h b y hook built }
{}
