//! The three visits.
ghost use Rattle.std.specs.Prelude.{◌≡◌, ℕ, ◌≤◌, Bool, true, List, length, map, take, max, Some};
ghost use mathlib.Core.List.{IsPrefix};
ghost use Rattle.tc_base.specs.declared.hook.Hook.{Hook};
ghost use Rattle.act_kinds.specs.Acts.{FitsFrames};
ghost use Rattle.flow_fields.specs.Values.{values_of};
ghost use Rattle.store_history.specs.declared.history.Commit.{Commit};
ghost use Rattle.store_history.specs.History.{root_of};
ghost use Rattle.store_history.specs.Reads.{read_all, read_first};
ghost use Rattle.visit_room.specs.declared.names.ActionName.{ActionName};
ghost use Rattle.visit_room.specs.declared.names.MaskName.{MaskName};
ghost use Rattle.visit_room.specs.declared.table_head.TableHead.{TableHead};
ghost use Rattle.filter_state.specs.declared.edit.Edit.{Edit};
ghost use Rattle.filter_state.specs.Sound.{Each};
ghost use Rattle.walk_rules.specs.Questions.{heads_of, filter_of, params_of, told_heads, told_params};
ghost use Rattle.walk_rules.specs.Answers.{answer_of};
ghost use Rattle.walk_steps.specs.Told.{heads_told, filter_told, MasksKnown};
ghost use Rattle.block_codec.specs.declared.action.StoredAction.{StoredAction};
ghost use Rattle.block_codec.specs.declared.table.StoredTable.{StoredTable};
ghost use Rattle.block_codec.specs.OfReadings.Read.{action_of_words, table_in};
ghost use Rattle.mask_table.specs.Told.{edits_by, LookedUp};
ghost use Rattle.miniq_pair.specs.Heads.{told_of, head_root, HeadTold};
ghost use Rattle.hook_law.specs.Places.{action_root};
ghost use Rattle.hook_law.specs.Meaning.{point_of};
ghost use Rattle.hook_law.specs.Keeping.{Keeps};
ghost use Rattle.hook_meaning.specs.Stated.{hook_meaning};
ghost use Rattle.hook_meaning.specs.Blocks.{hook_codec};
ghost use Rattle.hook_meaning.specs.Told.{state_after_edits, stands_at, heads_after, words_after};
ghost use Rattle.hook_meaning.specs.Told.{filters_after};
ghost use Rattle.hook_meaning.specs.OfVisits.Known.{MaskStood, ActionLived};

/// A head that was told is the state's at each point from its own up to all edits, and each mask that it
/// names stands at its slot.
pub fn heads_answer()
    ensures answer { (h : List (Commit Edit)) (hook : Hook) (told : List TableHead) (stamp point : ℕ)
        → HeadTold (λ k. heads_after h k hook) h hook told stamp → stamp ≤ point → point ≤ point_of h
        → answer_of (state_after_edits h point) (heads_of hook) ≡ Some (told_heads (heads_told told)) }
    ensures masks { (h : List (Commit Edit)) (hook : Hook) (told : List TableHead) (stamp : ℕ)
        → HeadTold (λ k. heads_after h k hook) h hook told stamp
        → MasksKnown (λ table mask. stands_at h mask.slot mask.serial) told }
{}

/// Tables that the chain of a hook's root reads as, whenever they were read, are what a visit of the head
/// tells, with the root's stamp as their point.
pub fn kept_heads_tell()
    ensures { (h : List (Commit Edit)) (b : ℕ) (hook : Hook) (tables : List StoredTable)
        → Keeps hook_meaning hook_codec h b → b ≤ length h
        → read_all table_in (root_of h (head_root hook)).chain ≡ Some tables
        → HeadTold (λ k. heads_after h k hook) h hook (map told_of tables)
        (root_of h (head_root hook)).stamp }
{}

/// A look-up of a mask that stood answers for the state at the greater of its own point and a floor up to
/// which the mask was known. The mask is then known up to that point, and so are the actions of the filter
/// that was found.
pub fn look_ups_answer()
    ensures answer { (h : List (Commit Edit)) (b floor slot serial table : ℕ) (key : List ℕ) (found : Bool)
        (actions : List ActionName) (point loads : ℕ) → Keeps hook_meaning hook_codec h b
        → (known : MaskStood h b floor slot serial) → length key ≡ 14
        → LookedUp stands_at (λ k. words_after h k serial) (λ k. filters_after h k serial) h known.at slot
        serial key found actions point loads
        → answer_of (state_after_edits h (max point floor)) (filter_of table serial (values_of key))
        ≡ Some (filter_told found actions) }
    ensures mask { (h : List (Commit Edit)) (b floor slot serial : ℕ) (key : List ℕ) (found : Bool)
        (actions : List ActionName) (point loads : ℕ)
        → (known : MaskStood h b floor slot serial)
        → LookedUp stands_at (λ k. words_after h k serial) (λ k. filters_after h k serial) h known.at slot
        serial key found actions point loads
        → MaskStood h b (max point floor) slot serial }
    ensures actions { (h : List (Commit Edit)) (b floor slot serial : ℕ) (key : List ℕ)
        (actions : List ActionName) (point loads : ℕ) → Keeps hook_meaning hook_codec h b
        → (known : MaskStood h b floor slot serial)
        → LookedUp stands_at (λ k. words_after h k serial) (λ k. filters_after h k serial) h known.at slot
        serial key true actions point loads
        → Each (λ (action : ActionName). ActionLived h b (max point floor) action.slot action.serial)
        actions }
{}

/// The root of the slot of an action that was live reads as the action, whose parameters are those of the
/// state at the greater of the root's stamp and a floor up to which the action was known. They fit frames.
pub fn actions_answer()
    ensures { (h : List (Commit Edit)) (b floor slot serial : ℕ) → Keeps hook_meaning hook_codec h b
        → ActionLived h b floor slot serial
        → (action : StoredAction)
        × (read_first action_of_words (root_of h (action_root slot)).chain ≡ Some action)
        × (answer_of (state_after_edits h (max (root_of h (action_root slot)).stamp floor))
        (params_of serial)
        ≡ Some (told_params action.params))
        × FitsFrames action.params
        × (max (root_of h (action_root slot)).stamp floor ≤ point_of h) }
{}

/// What is known of a name stays known when more commits were seen.
pub fn names_stay_known()
    ensures masks { (h longer : List (Commit Edit)) (b point slot serial : ℕ) → IsPrefix h longer
        → MaskStood h b point slot serial → MaskStood longer b point slot serial }
    ensures actions { (h longer : List (Commit Edit)) (b point slot serial : ℕ) → IsPrefix h longer
        → ActionLived h b point slot serial → ActionLived longer b point slot serial }
{}

/// Since b no slot stood for two masks.
pub fn one_mask_a_slot()
    ensures { (h : List (Commit Edit)) (b point later slot serial other : ℕ)
        → Keeps hook_meaning hook_codec h b
        → MaskStood h b point slot serial → MaskStood h b later slot other → serial ≡ other }
{}

/// At one time a mask stands at one slot.
pub fn one_slot_a_mask()
    ensures { (h : List (Commit Edit)) (b at slot other serial : ℕ) → Keeps hook_meaning hook_codec h b
        → b ≤ at → at ≤ length h
        → stands_at (take at h) slot serial → stands_at (take at h) other serial → slot ≡ other }
{}
