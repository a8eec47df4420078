//! The tables of a hook as a packet's walk is told them.
//!
//! A walk asks a hook for its heads: its tables by chain and pref, each with the serials of its masks. A
//! plain state answers from its flat rows, which are sorted and grouped for it (`heads_on` of `walk_rules`).
//! Two laws say what whoever keeps more than rows may count on. `listed_heads`: who keeps tables in lists
//! tells each list as one head, and has told the heads of the state. `same_mask`: in a sound state a mask
//! stands at one place of one table of one hook, so that its serial alone says where it is.
//!
//! The first law asks for lists that are kept whole; the second speaks of states alone.
//!
//! Laws only: there is nothing here to call at run time.
#![tactic(auto)]

ghost use Rattle.std.specs.Prelude.{◌≡◌, ℕ, map};
ghost use Rattle.tc_base.specs.declared.hook.Hook.{Hook};
ghost use Rattle.filter_state.specs.States.{State};
ghost use Rattle.filter_state.specs.Order.{SameState};
ghost use Rattle.filter_state.specs.Sound.{Sound};
ghost use Rattle.filter_tables.specs.Rows.{tables_on};
ghost use Rattle.hook_lists.specs.declared.kept.Kept.{Kept};
ghost use Rattle.hook_lists.specs.States.{both_of, state_of, AreKept};
ghost use Rattle.walk_rules.specs.Heads.{heads_on};
ghost use Rattle.head_laws.specs.Heads.{head_of, IsMaskAt};

/// The tables of lists, each told as one head, are the heads of each state that the lists spell.
pub fn listed_heads()
    ensures { (kept : Kept) (s : State) (hook : Hook) → AreKept kept → SameState (state_of kept) s
        → map head_of (tables_on hook (both_of kept)) ≡ heads_on hook s }
{}

/// In a sound state a mask stands at one place of one table of one hook.
pub fn same_mask()
    ensures { (s : State) → Sound s → (hook other : Hook) (i j k l serial : ℕ)
        → IsMaskAt (heads_on hook s) i k serial → IsMaskAt (heads_on other s) j l serial
        → (hook ≡ other) × (i ≡ j) × (k ≡ l) }
{}
