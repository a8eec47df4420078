//! What holds of every state that edits lead to.
//!
//! An edit is a step of the plain state, as `filter_state` writes it down, with the refusals in their order.
//! The state that it leaves is sound: the rows of a table agree, no two filters of a table have the same
//! handle or match alike, each action that a filter names is live, its counts are the places that name it,
//! and the limits hold. Whoever carries the state in lists of its own may rely on that, and who looks a
//! filter up finds one at most.
//!
//! `order` says that the order between filters of different masks changes nothing, so that lists of tables
//! and masks are enough.
//!
//! The laws stand apart because they are proofs alone, over definitions: none of the crates that cite those
//! has to be proved again when a proof here changes. There is no code: the functions do nothing, and any
//! thread may call them.
#![tactic(auto)]

pub mod order;

ghost use Rattle.std.specs.Prelude.{◌≡◌, ℕ, List, [], ◌∷◌, Some, None, Ok, Err};
ghost use Rattle.tc_base.specs.declared.hook.Hook.TheVariants as hooks;
ghost use Rattle.act_kinds.specs.declared.params.Kind.TheVariants as kinds;
ghost use Rattle.filter_state.specs.declared.edit.Edit.TheVariants as edits;
ghost use Rattle.filter_state.specs.declared.refusal.Done.TheVariants as dones;
ghost use Rattle.filter_state.specs.declared.refusal.Refusal.TheVariants as refusals;
ghost use Rattle.filter_state.specs.Journals.{state_from};
ghost use Rattle.tc_base.specs.declared.hook.Proto.TheVariants as protocols;
ghost use Rattle.state_laws.specs.Cases.{ip, gact, drop, named, filter_of, on_address, says, counts_of};
ghost use Rattle.filter_state.specs.declared.edit.Edit.{Edit};
ghost use Rattle.filter_state.specs.States.{State, no_state};
ghost use Rattle.filter_state.specs.Lines.{IsLine};
ghost use Rattle.filter_state.specs.Steps.{step};
ghost use Rattle.filter_state.specs.Sound.{Sound};
ghost use Rattle.filter_state.specs.Journals.{state_after, state_at, IsLawful};

/// The state without a qdisc is sound, each edit that a line can say keeps a state sound, accepted or
/// refused, and so the state at every point of a lawful journal is sound.
pub fn steps_keep_states_sound()
    ensures start { Sound no_state }
    ensures step { (s : State) (edit : Edit) → Sound s → IsLine edit → Sound (state_after s (step s edit)) }
    ensures journal { (journal : List Edit) (point : ℕ) → IsLawful journal → Sound (state_at point journal) }
{}

/// What some small batches come to, as it was worked out by hand. The first filter gets pref 49152 and the
/// next one 49151; a list of actions makes and binds in order; a del gives the lowest index free again, and
/// no serial.
pub fn worked_cases()
    ensures no_hook { says [] (on_address 1) ≡ Err refusals.NoHook }
    ensures twice { says (edits.HookAdd ∷ on_address 1 ∷ []) (on_address 1) ≡ Err (refusals.Exists 1) }
    ensures clash { says (edits.HookAdd ∷ on_address 1 ∷ [])
        (edits.FilterAdd (filter_of protocols.All (Some 10) None 0 0 (drop ∷ [])))
        ≡ Err (refusals.ProtocolClash ip) }
    ensures taken { says (edits.HookAdd ∷ on_address 1 ∷ [])
        (edits.FilterAdd (filter_of ip (Some 10) (Some 1) 255 2 (drop ∷ []))) ≡ Err refusals.HandleTaken }
    ensures replaced { says (edits.HookAdd ∷ on_address 1 ∷ [])
        (edits.FilterReplace (filter_of ip (Some 10) (Some 1) 255 2 (drop ∷ [])))
        ≡ Ok (dones.Filter 10 1 (2 ∷ [])) }
    ensures new_index { counts_of
        (state_from no_state (edits.HookAdd ∷ on_address 1
        ∷ edits.FilterReplace (filter_of ip (Some 10) (Some 1) 255 2 (drop ∷ [])) ∷ [])).actions
        ≡ (2 ∷ 2 ∷ 1 ∷ 1 ∷ []) ∷ [] }
    ensures first_pref { says (edits.HookAdd ∷ [])
        (edits.FilterAdd (filter_of ip None None 255 1 (drop ∷ []))) ≡ Ok (dones.Filter 49152 1 (1 ∷ [])) }
    ensures next_pref { says (edits.HookAdd ∷ edits.FilterAdd (filter_of ip None None 255 1 (drop ∷ [])) ∷ [])
        (edits.FilterAdd (filter_of ip None None 255 2 (drop ∷ []))) ≡ Ok (dones.Filter 49151 1 (2 ∷ [])) }
    ensures no_pref { says (edits.HookAdd ∷ edits.FilterAdd (filter_of ip (Some 1) None 255 1 (drop ∷ []))
        ∷ []) (edits.FilterAdd (filter_of ip None None 255 2 (drop ∷ []))) ≡ Err refusals.NoPref }
    ensures made_and_bound { counts_of
        (state_from no_state
        (edits.HookAdd ∷ edits.FilterAdd (filter_of ip (Some 10) None 255 1 (drop ∷ named 1 ∷ drop ∷ []))
        ∷ [])).actions ≡ (1 ∷ 1 ∷ 2 ∷ 2 ∷ []) ∷ (2 ∷ 2 ∷ 1 ∷ 1 ∷ []) ∷ [] }
    ensures not_there { says (edits.HookAdd ∷ [])
        (edits.FilterAdd (filter_of ip (Some 10) None 255 1 (named 5 ∷ [])))
        ≡ Err (refusals.NoSuchAction kinds.Gact 5) }
    ensures bound { says (edits.HookAdd ∷ on_address 1 ∷ []) (edits.ActionDel kinds.Gact 1)
        ≡ Err (refusals.ActionBound 1) }
    ensures exists { says (edits.ActionAdd drop ∷ []) (edits.ActionAdd (record drop { index = Some 1 }))
        ≡ Err refusals.ActionExists }
    ensures changed { says (edits.ActionAdd drop ∷ []) (edits.ActionChange (record drop { index = Some 1 }))
        ≡ Ok dones.ActionChanged }
    ensures made_by_change { says [] (edits.ActionChange (record drop { index = Some 7 }))
        ≡ Ok (dones.ActionMade 7 1) }
    ensures index_again { says (edits.HookAdd ∷ on_address 1 ∷ edits.FilterDel hooks.Ingress None 0 10 None
        ∷ []) (edits.ActionAdd drop) ≡ Ok (dones.ActionMade 1 2) }
    ensures in_use { says (edits.HookAdd ∷ on_address 1 ∷ []) edits.HookDel ≡ Err refusals.HookInUse }
    ensures no_table { says (edits.HookAdd ∷ []) (edits.FilterDel hooks.Ingress None 0 10 None)
        ≡ Err refusals.NoSuchTable }
    ensures no_filter { says (edits.HookAdd ∷ on_address 1 ∷ [])
        (edits.FilterDel hooks.Ingress None 0 10 (Some 2)) ≡ Err refusals.NoSuchFilter }
{}
