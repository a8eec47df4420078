//! Edits of the qdisc, and of actions apart from filters.
ghost use Rattle.std.specs.Prelude.{◌≡◌, ℕ, List, true};
ghost use Rattle.act_kinds.specs.declared.params.Kind.{Kind};
ghost use Rattle.store_history.specs.declared.history.Commit.{Commit};
ghost use Rattle.filter_state.specs.declared.action_line.ActionLine.{ActionLine};
ghost use Rattle.filter_state.specs.declared.edit.Edit.{Edit};
ghost use Rattle.filter_state.specs.declared.edit.Edit.TheVariants as edits;
ghost use Rattle.filter_state.specs.declared.refusal.Done.{Done};
ghost use Rattle.filter_state.specs.States.{State};
ghost use Rattle.hook_store_law.specs.OfEdits.Premises.{now, IsAccepted};
ghost use Rattle.desk_pools.specs.declared.pools.Pools.{Pools};
ghost use Rattle.desk_actions.specs.Effects.{IsCounted};
ghost use Rattle.desk_actions.specs.Kinds.{IsMaking, IsChanging};
ghost use Rattle.desk_parts.specs.OfPlainEdits.Kinds.{IsOfQdisc};
ghost use Rattle.shared_hook.specs.OfBalance.Counts.{AreCounted};

/// Behind `mark_edit`, `make_action`, `change_action` and `delete_action` the pools add up, as before.
pub fn counted_after_plain_edits()
    ensures marked { (old new : Pools) (h : List (Commit Edit)) (b : ℕ) (y : Edit) (t : State) (done : Done)
        → AreCounted old (now h) → IsAccepted h b y t done → IsOfQdisc y → new ≡ old → AreCounted new t }
    ensures made { (old new : Pools) (h : List (Commit Edit)) (b : ℕ) (y : Edit) (t : State) (done : Done)
        (line : ActionLine) → AreCounted old (now h) → IsAccepted h b y t done → IsMaking (now h) line y
        → IsCounted old.blocks new.blocks 1 0 → IsCounted old.actions new.actions 1 0
        → new ≡ record old { blocks = new.blocks; actions = new.actions } → AreCounted new t }
    ensures changed { (old new : Pools) (h : List (Commit Edit)) (b : ℕ) (y : Edit) (t : State) (done : Done)
        (line : ActionLine) → AreCounted old (now h) → IsAccepted h b y t done → IsChanging (now h) line y
        → IsCounted old.blocks new.blocks 1 1 → new ≡ record old { blocks = new.blocks }
        → AreCounted new t }
    ensures deleted { (old new : Pools) (h : List (Commit Edit)) (b : ℕ) (y : Edit) (t : State) (done : Done)
        (kind : Kind) (index : ℕ) → AreCounted old (now h) → IsAccepted h b y t done
        → y ≡ edits.ActionDel kind index → IsCounted old.blocks new.blocks 0 1
        → IsCounted old.actions new.actions 0 1
        → new ≡ record old { blocks = new.blocks; actions = new.actions } → AreCounted new t }
{}
