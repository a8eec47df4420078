//! Small batches, worked out by hand.
ghost use Rattle.std.specs.Prelude.{◌≡◌, [], ◌∷◌, Some, None};
ghost use Rattle.tc_base.specs.declared.hook.Hook.TheVariants as hooks;
ghost use Rattle.act_kinds.specs.declared.params.Control.TheVariants as controls;
ghost use Rattle.act_kinds.specs.declared.params.Params.TheVariants as params;
ghost use Rattle.filter_state.specs.declared.edit.Edit.TheVariants as edits;
ghost use Rattle.state_laws.specs.Cases.{on_address};
ghost use Rattle.walk_rules.specs.Heads.{heads_on};
ghost use Rattle.edit_effects.specs.OfEffects.Parts.{filters_of, words_of, params_at};
ghost use Rattle.edit_effects.specs.OfEffects.EffectCases.{two_and, replaced_by, filter_with, table_with};

/// What an edit makes of two filters of one mask: a third one comes last; with its own mask and key a filter
/// stays where it was, with another key it comes last, with another mask it leaves; the tables change with
/// the masks alone.
pub fn worked_effects()
    ensures third { filters_of (two_and (on_address 3)) 1 ≡ filter_with 1 1 1 ∷ filter_with 2 2 2
        ∷ filter_with 3 3 3 ∷ [] }
    ensures third_tables { heads_on hooks.Ingress (two_and (on_address 3)) ≡ table_with (1 ∷ []) }
    ensures in_place { filters_of (two_and (replaced_by 255 1)) 1 ≡ filter_with 1 1 3 ∷ filter_with 2 2 2
        ∷ [] }
    ensures other_key { filters_of (two_and (replaced_by 255 3)) 1 ≡ filter_with 2 2 2 ∷ filter_with 1 3 3
        ∷ [] }
    ensures left_mask { filters_of (two_and (replaced_by 15 1)) 1 ≡ filter_with 2 2 2 ∷ [] }
    ensures other_mask { filters_of (two_and (replaced_by 15 1)) 2 ≡ filter_with 1 1 3 ∷ [] }
    ensures other_words { words_of (two_and (replaced_by 15 1)) 2 ≡ 15 ∷ [] }
    ensures other_tables { heads_on hooks.Ingress (two_and (replaced_by 15 1)) ≡ table_with (1 ∷ 2 ∷ []) }
    ensures deleted { filters_of (two_and (edits.FilterDel hooks.Ingress None 0 10 (Some 1))) 1
        ≡ filter_with 2 2 2 ∷ [] }
    ensures gone { params_at (two_and (edits.FilterDel hooks.Ingress None 0 10 (Some 1))) 1 ≡ None }
    ensures live { params_at (two_and (edits.FilterDel hooks.Ingress None 0 10 (Some 1))) 2
        ≡ Some (params.Gact controls.Shot) }
    ensures no_table { heads_on hooks.Ingress (two_and (edits.FilterDel hooks.Ingress None 0 10 None)) ≡ [] }
{}
