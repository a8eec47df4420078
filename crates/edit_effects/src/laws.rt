//! What each kind of edit changes, and what it leaves.
ghost use Rattle.std.specs.Prelude.{◌≡◌, ◌≢◌, ◌⊎◌, ℕ, ◌+◌, List, [], ◌∷◌, ◌++◌, Option, Some, None, Ok};
ghost use Rattle.std.specs.Prelude.{unwrap_or};
ghost use Rattle.tc_base.specs.declared.hook.Hook.{Hook};
ghost use Rattle.tc_base.specs.declared.hook.Proto.{Proto};
ghost use Rattle.act_kinds.specs.declared.params.Kind.{Kind};
ghost use Rattle.act_kinds.specs.declared.params.Params.{Params};
ghost use Rattle.filter_state.specs.declared.action_line.ActionLine.{ActionLine};
ghost use Rattle.filter_state.specs.declared.edit.Edit.{Edit};
ghost use Rattle.filter_state.specs.declared.edit.Edit.TheVariants as edits;
ghost use Rattle.filter_state.specs.declared.edit.FilterLine.{FilterLine};
ghost use Rattle.filter_state.specs.declared.refusal.Done.{Done};
ghost use Rattle.filter_state.specs.declared.refusal.Done.TheVariants as dones;
ghost use Rattle.filter_state.specs.States.{Row, Action, State};
ghost use Rattle.filter_state.specs.Sound.{Sound};
ghost use Rattle.filter_state.specs.Lines.{IsLine};
ghost use Rattle.filter_state.specs.Actions.{is_named};
ghost use Rattle.filter_state.specs.Tables.{first_where, mask_row, filter_row, mask_or_next};
ghost use Rattle.filter_state.specs.Steps.{step};
ghost use Rattle.edit_effects.specs.OfEffects.Parts.{Filter, Stands, filters_of, words_of, params_at, without};
ghost use Rattle.edit_effects.specs.OfEffects.Effects.{KeepsFilters, KeepsTables, ChangesMask, HasMask};
ghost use Rattle.edit_effects.specs.OfEffects.Effects.{ChangesHook, KeepsActions, LosesNoAction, MakesNoAction};
ghost use Rattle.edit_effects.specs.OfEffects.Effects.{ChangesAction, with_actions};

/// The qdisc comes and goes without a change to tables, filters or actions.
pub fn the_qdisc()
    ensures filters { (s t : State) (done : Done) → (step s edits.HookAdd ≡ Ok (t, done))
        ⊎ (step s edits.HookDel ≡ Ok (t, done)) → KeepsFilters s t }
    ensures actions { (s t : State) (done : Done) → (step s edits.HookAdd ≡ Ok (t, done))
        ⊎ (step s edits.HookDel ≡ Ok (t, done)) → t.actions ≡ s.actions }
{}

/// An edit of actions leaves all filters. An action that is made has the next serial, one that is changed
/// keeps its own, and one that is deleted is the only one to go.
pub fn actions_alone()
    ensures filters { (s t : State) (edit : Edit) (done : Done) (line : ActionLine) (kind : Kind) (index : ℕ)
        → step s edit ≡ Ok (t, done)
        → (edit ≡ edits.ActionAdd line)
        ⊎ ((edit ≡ edits.ActionChange line) ⊎ (edit ≡ edits.ActionDel kind index)) → KeepsFilters s t }
    ensures made { (s t : State) (line : ActionLine) (index serial : ℕ) → Sound s
        → (step s (edits.ActionAdd line) ≡ Ok (t, dones.ActionMade index serial))
        ⊎ (step s (edits.ActionChange line) ≡ Ok (t, dones.ActionMade index serial))
        → (serial ≡ s.actions_made + 1)
        × ((params : Params) × (line.params ≡ Some params) × ChangesAction serial params s t) }
    ensures changed { (s t : State) (line : ActionLine) → Sound s → step s (edits.ActionChange line)
        ≡ Ok (t, dones.ActionChanged)
        → (action : Action) × (params : Params)
        × (first_where (is_named line.kind (unwrap_or line.index 0)) s.actions ≡ Some action)
        × (line.params ≡ Some params)
        × ChangesAction action.serial params s t }
    ensures deleted { (s t : State) (kind : Kind) (index : ℕ) (done : Done) → Sound s
        → step s (edits.ActionDel kind index) ≡ Ok (t, done)
        → (action : Action) × (first_where (is_named kind index) s.actions ≡ Some action)
        × (params_at t action.serial ≡ None)
        × ((other : ℕ) → other ≢ action.serial → params_at t other ≡ params_at s other) }
{}

/// An edit of filters makes actions with new serials, and may take some away: an add takes none, and a
/// deletion makes none. None gets other parameters.
pub fn actions_of_filters()
    ensures kept { (s t : State) (edit : Edit) (done : Done) (line : FilterLine) (hook : Hook)
        (protocol : Option Proto) (chain pref : ℕ) (handle : Option ℕ) → Sound s
        → step s edit ≡ Ok (t, done)
        → (edit ≡ edits.FilterAdd line)
        ⊎ ((edit ≡ edits.FilterReplace line) ⊎ (edit ≡ edits.FilterDel hook protocol chain pref handle))
        → KeepsActions s t }
    ensures added { (s t : State) (done : Done) (line : FilterLine) → Sound s
        → step s (edits.FilterAdd line) ≡ Ok (t, done) → LosesNoAction s t }
    ensures deleted { (s t : State) (done : Done) (hook : Hook) (protocol : Option Proto) (chain pref : ℕ)
        (handle : Option ℕ) → Sound s
        → step s (edits.FilterDel hook protocol chain pref handle) ≡ Ok (t, done) → MakesNoAction s t }
{}

/// A filter is added: to a mask that stands it is the last one, and nothing else changes; else it is the one
/// filter of a new mask, and of all other masks nothing changes.
pub fn filter_added()
    ensures old_mask { (s t : State) (line : FilterLine) (pref handle : ℕ) (serials : List ℕ) (row : Row)
        → Sound s
        → step s (edits.FilterAdd line) ≡ Ok (t, dones.Filter pref handle serials)
        → mask_row line.hook line.chain pref line.mask.words s.rows ≡ Some row
        → ChangesMask row.mask_serial (filters_of s row.mask_serial
        ++ record { handle = handle; key = line.key.words; actions = serials } ∷ []) s t }
    ensures new_mask { (s t : State) (line : FilterLine) (pref handle : ℕ) (serials : List ℕ) → Sound s
        → step s (edits.FilterAdd line) ≡ Ok (t, dones.Filter pref handle serials)
        → mask_row line.hook line.chain pref line.mask.words s.rows ≡ None
        → HasMask (s.masks_made + 1) line.mask.words
        (record { handle = handle; key = line.key.words; actions = serials } ∷ []) t
        × ChangesHook line.hook (λ mask. mask ≡ s.masks_made + 1) s t × (Stands s (s.masks_made + 1) → ⊥) }
{}

/// A filter is replaced where it is there. With the same mask and key it keeps its place, and nothing else
/// changes. Else it leaves its mask and is the last one of the line's mask, a new one where the table doesn't
/// have it, and of all other masks nothing changes. The tables stay where the mask is the same, or where the
/// line's mask was there and the filter's keeps another.
pub fn filter_replaced()
    ensures in_place { (s t : State) (line : FilterLine) (pref handle : ℕ) (serials : List ℕ) (row : Row)
        → Sound s
        → step s (edits.FilterReplace line) ≡ Ok (t, dones.Filter pref handle serials)
        → filter_row line.hook line.chain (unwrap_or line.pref 0) (unwrap_or line.handle 0) s.rows ≡ Some row
        → row.mask ≡ line.mask.words → row.key ≡ line.key.words
        → ChangesMask row.mask_serial (with_actions handle serials (filters_of s row.mask_serial)) s t }
    ensures other_key { (s t : State) (line : FilterLine) (pref handle : ℕ) (serials : List ℕ) (row : Row)
        → Sound s
        → step s (edits.FilterReplace line) ≡ Ok (t, dones.Filter pref handle serials)
        → filter_row line.hook line.chain (unwrap_or line.pref 0) (unwrap_or line.handle 0) s.rows ≡ Some row
        → row.mask ≡ line.mask.words → row.key ≢ line.key.words
        → HasMask row.mask_serial line.mask.words (without handle (filters_of s row.mask_serial)
        ++ record { handle = handle; key = line.key.words; actions = serials } ∷ []) t
        × ChangesHook line.hook (λ mask. mask ≡ row.mask_serial) s t × KeepsTables s t }
    ensures other_mask { (s t : State) (line : FilterLine) (pref handle : ℕ) (serials : List ℕ) (row : Row)
        → Sound s
        → step s (edits.FilterReplace line) ≡ Ok (t, dones.Filter pref handle serials)
        → filter_row line.hook line.chain (unwrap_or line.pref 0) (unwrap_or line.handle 0) s.rows ≡ Some row
        → row.mask ≢ line.mask.words
        → (mask : ℕ) × (mask ≢ row.mask_serial)
        × (mask ≡ mask_or_next (mask_row line.hook line.chain pref line.mask.words s.rows) s.masks_made)
        × HasMask mask line.mask.words (filters_of s mask ++ record {
          handle = handle;
          key = line.key.words;
          actions = serials;
        } ∷ []) t
        × (filters_of t row.mask_serial ≡ without handle (filters_of s row.mask_serial))
        × ChangesHook line.hook (λ other. (other ≡ mask) ⊎ (other ≡ row.mask_serial)) s t
        × (Stands s mask → Stands t row.mask_serial → KeepsTables s t) }
    ensures added { (s : State) (line : FilterLine)
        → filter_row line.hook line.chain (unwrap_or line.pref 0) (unwrap_or line.handle 0) s.rows ≡ None
        → step s (edits.FilterReplace line) ≡ step s (edits.FilterAdd line) }
{}

/// A filter is deleted: it leaves its mask. Where the mask has another filter, nothing else changes; else the
/// mask is gone, and of all other masks nothing changes. A table is deleted: its masks are gone, and of all
/// others nothing changes.
pub fn filter_deleted()
    ensures from_mask { (s t : State) (hook : Hook) (protocol : Option Proto) (chain pref handle : ℕ)
        (done : Done) → Sound s
        → step s (edits.FilterDel hook protocol chain pref (Some handle)) ≡ Ok (t, done)
        → (row : Row) × (filter_row hook chain pref handle s.rows ≡ Some row)
        × (filters_of t row.mask_serial ≡ without handle (filters_of s row.mask_serial))
        × ChangesHook hook (λ mask. mask ≡ row.mask_serial) s t
        × (Stands t row.mask_serial
        → ChangesMask row.mask_serial (without handle (filters_of s row.mask_serial)) s t) }
    ensures table { (s t : State) (hook : Hook) (protocol : Option Proto) (chain pref : ℕ) (done : Done)
        → Sound s
        → step s (edits.FilterDel hook protocol chain pref None) ≡ Ok (t, done)
        → ChangesHook hook (λ mask. (filters_of t mask ≡ []) × Stands s mask) s t }
{}
