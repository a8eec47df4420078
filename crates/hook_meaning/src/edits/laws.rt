//! What holds of every accepted edit, and of the edits of actions.
ghost use Rattle.std.specs.Prelude.{◌≡◌, ◌⊎◌, ℕ, ◌+◌, List, [], ◌∷◌, ◌++◌, true, Some, unwrap_or};
ghost use Rattle.act_kinds.specs.declared.params.Kind.{Kind};
ghost use Rattle.act_kinds.specs.declared.params.Params.{Params};
ghost use Rattle.store_history.specs.declared.history.Commit.{Commit};
ghost use Rattle.store_history.specs.History.{edits_of};
ghost use Rattle.filter_state.specs.declared.action_line.ActionLine.{ActionLine};
ghost use Rattle.filter_state.specs.declared.edit.Edit.{Edit};
ghost use Rattle.filter_state.specs.declared.edit.Edit.TheVariants as edits;
ghost use Rattle.filter_state.specs.declared.refusal.Done.{Done};
ghost use Rattle.filter_state.specs.declared.refusal.Done.TheVariants as dones;
ghost use Rattle.filter_state.specs.States.{Action, State, no_state};
ghost use Rattle.filter_state.specs.Sound.{Sound};
ghost use Rattle.filter_state.specs.Actions.{is_named};
ghost use Rattle.filter_state.specs.Tables.{first_where};
ghost use Rattle.filter_state.specs.Journals.{IsLawful};
ghost use Rattle.hook_law.specs.Places.{marker_root};
ghost use Rattle.hook_law.specs.Meaning.{IsLive, point_of};
ghost use Rattle.hook_law.specs.Changes.{LeavesMasks};
ghost use Rattle.hook_law.specs.Keeping.{IsAtRest};
ghost use Rattle.hook_law.specs.Numbered.{Marks};
ghost use Rattle.hook_meaning.specs.Stated.{hook_meaning};
ghost use Rattle.hook_meaning.specs.Blocks.{hook_codec};
ghost use Rattle.hook_meaning.specs.OfEdits.Premises.{now, next, IsAccepted, IsUnseen, NoneComes, SetsAction};

/// An accepted edit leads where the step leads, may be made after the others, and both states are sound.
pub fn accepted_edits()
    ensures leads { (h : List (Commit Edit)) (b : ℕ) (y : Edit) (t : State) (done : Done)
        → IsAccepted h b y t done → next h y ≡ t }
    ensures lawful { (h : List (Commit Edit)) (b : ℕ) (y : Edit) (t : State) (done : Done)
        → IsAccepted h b y t done
        → IsLawful (edits_of h ++ y ∷ []) }
    ensures sound { (h : List (Commit Edit)) (b : ℕ) (y : Edit) (t : State) (done : Done)
        → IsAccepted h b y t done → Sound (now h) }
    ensures next_sound { (h : List (Commit Edit)) (b : ℕ) (y : Edit) (t : State) (done : Done)
        → IsAccepted h b y t done → Sound (next h y) }
{}

/// The first edit of all can be accepted: the qdisc is added where nothing was committed.
pub fn first_edit()
    ensures { IsAccepted [] 0 edits.HookAdd (record no_state { hooked = true }) dones.Hooked }
{}

/// The qdisc comes or goes.
pub fn qdisc_edits()
    ensures leaves { (h : List (Commit Edit)) (b : ℕ) (y : Edit) (t : State) (done : Done)
        → IsAccepted h b y t done
        → (y ≡ edits.HookAdd) ⊎ (y ≡ edits.HookDel) → LeavesMasks hook_meaning (now h) (next h y) }
    ensures none_comes { (h : List (Commit Edit)) (b : ℕ) (y : Edit) (t : State) (done : Done)
        → IsAccepted h b y t done
        → (y ≡ edits.HookAdd) ⊎ (y ≡ edits.HookDel) → NoneComes (now h) (next h y) }
{}

/// An action apart from filters is deleted.
pub fn action_deleted()
    ensures leaves { (h : List (Commit Edit)) (b : ℕ) (kind : Kind) (index : ℕ) (t : State) (done : Done)
        → IsAccepted h b (edits.ActionDel kind index) t done
        → LeavesMasks hook_meaning (now h) (next h (edits.ActionDel kind index)) }
    ensures none_comes { (h : List (Commit Edit)) (b : ℕ) (kind : Kind) (index : ℕ) (t : State) (done : Done)
        → IsAccepted h b (edits.ActionDel kind index) t done
        → NoneComes (now h) (next h (edits.ActionDel kind index)) }
{}

/// The commit of an edit that no walk can see: it goes to the marker root, with the next number. This is all
/// that its kind of commit has to meet.
pub fn unseen_edits()
    ensures { (h : List (Commit Edit)) (b : ℕ) (c : Commit Edit) (y : Edit) (t : State) (done : Done)
        → IsAccepted h b y t done → IsUnseen y
        → IsAtRest hook_meaning hook_codec h → c.root ≡ marker_root → c.edit ≡ Some (point_of h + 1, y)
        → c.named.stamp ≡ point_of h + 1
        → Marks hook_meaning hook_codec h c y }
{}

/// An action apart from filters is made: it has the next serial, which no live action has.
pub fn action_made()
    ensures { (h : List (Commit Edit)) (b : ℕ) (y : Edit) (t : State) (line : ActionLine) (index serial : ℕ)
        → IsAccepted h b y t (dones.ActionMade index serial) → (y ≡ edits.ActionAdd line)
        ⊎ (y ≡ edits.ActionChange line)
        → (serial ≡ (now h).actions_made + 1) × (IsLive hook_meaning (now h) serial → ⊥)
        × ((params : Params) × (line.params ≡ Some params)
        × SetsAction serial index params (now h) (next h y)) }
{}

/// An action apart from filters is changed: the live one of the line's kind and index gets the line's
/// parameters, and keeps its serial and index.
pub fn action_changed()
    ensures { (h : List (Commit Edit)) (b : ℕ) (t : State) (line : ActionLine)
        → IsAccepted h b (edits.ActionChange line) t dones.ActionChanged
        → (action : Action) × (params : Params)
        × (first_where (is_named line.kind (unwrap_or line.index 0)) (now h).actions ≡ Some action)
        × (line.params ≡ Some params) × IsLive hook_meaning (now h) action.serial
        × SetsAction action.serial action.index params (now h) (next h (edits.ActionChange line)) }
{}
