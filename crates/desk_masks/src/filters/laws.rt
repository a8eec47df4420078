//! Filters that edits name are in the masks that are kept.
ghost use Rattle.std.specs.Prelude.{◌≡◌, ℕ, List, Option, Some};
ghost use Rattle.tc_base.specs.declared.hook.Hook.{Hook};
ghost use Rattle.tc_base.specs.declared.hook.Proto.{Proto};
ghost use Rattle.store_history.specs.declared.history.Commit.{Commit};
ghost use Rattle.pin_store.specs.declared.shape.Shape.{Shape};
ghost use Rattle.filter_state.specs.declared.edit.Edit.{Edit};
ghost use Rattle.filter_state.specs.declared.edit.Edit.TheVariants as edits;
ghost use Rattle.filter_state.specs.declared.edit.FilterLine.{FilterLine};
ghost use Rattle.filter_state.specs.declared.refusal.Done.{Done};
ghost use Rattle.filter_state.specs.declared.refusal.Done.TheVariants as dones;
ghost use Rattle.filter_state.specs.States.{Row, State};
ghost use Rattle.filter_state.specs.Tables.{filter_row};
ghost use Rattle.hook_store_law.specs.OfEffects.Parts.{Stands};
ghost use Rattle.mask_table.specs.declared.mirrors.mirror.KeptMask.{KeptMask};
ghost use Rattle.mask_writer.specs.Masks.{Masks};
ghost use Rattle.mask_writer.specs.Standing.{StandsAt};
ghost use Rattle.hook_law.specs.Standing.{IsMaskAt};
ghost use Rattle.hook_store_law.specs.Stated.{filters_at};
ghost use Rattle.hook_store_law.specs.Blocks.{hook_codec};
ghost use Rattle.hook_store_law.specs.OfEdits.Premises.{now, IsAccepted, named_row};
ghost use Rattle.desk_masks.specs.Masks.{HasMasks};
ghost use Rattle.desk_masks.specs.OfFilterCommits.Edits.{HasLater};

/// The filter that an accepted edit deletes, where its mask has others, or in whose place it puts one with
/// the same mask and key, is in the mask that is kept at the slot: `later_in_bucket` may be asked for it.
pub fn edited_filters_are_there()
    ensures removed { (h : List (Commit Edit)) (b : ℕ) (hook : Hook) (protocol : Option Proto)
        (chain pref handle : ℕ) (t : State) (done : Done) (row : Row) (slot : ℕ) (masks : Masks)
        (shape : Shape) (cells : List ℕ) (kept : KeptMask)
        → IsAccepted h b (edits.FilterDel hook protocol chain pref (Some handle)) t done
        → filter_row hook chain pref handle (now h).rows ≡ Some row → Stands t row.mask_serial
        → IsMaskAt hook_codec h row.mask_serial slot
        → HasMasks masks shape cells h → StandsAt masks slot kept
        → (later : ℕ) × HasLater kept.mask.size handle (filters_at (now h) kept.mask.serial) later }
    ensures exchanged { (h : List (Commit Edit)) (b : ℕ) (t : State) (line : FilterLine) (pref handle : ℕ)
        (serials : List ℕ) (row : Row) (slot : ℕ) (masks : Masks) (shape : Shape) (cells : List ℕ)
        (kept : KeptMask)
        → IsAccepted h b (edits.FilterReplace line) t (dones.Filter pref handle serials)
        → named_row (now h) line ≡ Some row → row.mask ≡ line.mask.words → row.key ≡ line.key.words
        → IsMaskAt hook_codec h row.mask_serial slot
        → HasMasks masks shape cells h → StandsAt masks slot kept
        → (later : ℕ) × HasLater kept.mask.size handle (filters_at (now h) kept.mask.serial) later }
{}
