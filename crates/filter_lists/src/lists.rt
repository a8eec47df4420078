//! The lists of both hooks and the actions.
ghost use Rattle.std.specs.Prelude.{◌≡◌, map, IfOk, IsTrue};
ghost use Rattle.filter_state.specs.Lines.{IsLine};
ghost use Rattle.filter_state.specs.Steps.{step};
ghost use Rattle.filter_state.specs.States.{State, no_state};
ghost use Rattle.filter_tables.specs.Seen.{plain_table};
ghost use Rattle.filter_tables.specs.Rows.{tables_on};

use crate::applying::apply;
use crate::doing::carry;
use crate::prepared::Prepared;
use crate::preparing::plan_for;
use act_kinds::Params;
use act_registry::Registry;
use filter_state::{Done, Edit, Refusal};
use filter_tables::{FilterTable, FilterTables};
use hook_lists::{Kept, find_table, tables_of};
use std::alloc::Global;
use std::marker::Model;
use std::snapshot::Snapshot;
use tc_base::Hook;

/// The tables of the two hooks with their masks and filters, and the actions that filters share.
#[derive(Drop)]
pub struct Lists {
    pub(crate) kept: Kept,
}

impl Model for Lists {
    ghost use Rattle.hook_lists.specs.declared.kept.Kept.{Kept};
    ghost use Rattle.hook_lists.specs.States.{AreKept};

    ghost Value = { Kept };

    ghost view = { λ l. l.kept };

    ghost invariant = { λ l. AreKept l.kept };
}

impl Lists {
    ghost use Rattle.hook_lists.specs.States.{both_of, place_on, AreKept};
    ghost use Rattle.filter_lists.specs.Spells.{Spells};
    ghost use Rattle.filter_lists.specs.Edits.{Stays, IsStepped, IsPrepared, IsFinished, MayStep};

    /// No qdisc, and nothing made so far. It takes no memory yet.
    pub fn new(alloc: Global) -> Lists
        ensures { Spells result no_state }
    {
        Lists {
            kept: Kept {
                hooked: false,
                ingress: FilterTables::new(alloc),
                egress: FilterTables::new(alloc),
                actions: Registry::new(alloc),
                tables_made: 0,
                masks_made: 0,
                filters: 0,
                alloc,
            },
        }
    }

    /// Whether the qdisc is there.
    pub fn hooked(&self) -> bool
        ensures { result ≡ self.now.hooked }
    {
        self.kept.hooked
    }

    /// The tables of a hook, by rising chain, then rising pref, with their masks in the order in which they
    /// were made. No table and no mask is empty.
    pub fn tables(&self, hook: Hook) -> &[FilterTable]
        ensures tables { map plain_table result.now ≡ tables_on hook (both_of self.now) }
        ensures kept { AreKept self.now }
    {
        tables_of(&self.kept, hook).as_slice()
    }

    /// The place of the table with that chain and pref among the tables of a hook.
    pub fn find_table(&self, hook: Hook, chain: u32, pref: u32) -> Option<usize>
        ensures { result ≡ place_on hook chain pref self.now }
    {
        find_table(&self.kept, hook, chain, pref)
    }

    /// The actions that filters share.
    pub fn actions(&self) -> &Registry<Params>
        ensures actions { result.now ≡ self.now.actions }
        ensures kept { AreKept self.now }
    {
        &self.kept.actions
    }

    /// Whether `step` and `prepare` may be called: fewer than 4,294,967,295 tables were made so far, and as
    /// few masks.
    ///
    /// No command calls it, since its own limit of lines says so: it carries the law that these two numbers
    /// are all that an edit asks of lists.
    pub fn may_step(&self) -> bool
        ensures { IsTrue result → MayStep self.now }
    {
        self.kept.tables_made < u32::MAX && self.kept.masks_made < u32::MAX
    }

    /// Looks at an edit, and makes it ready: `finish` can't refuse it then. The state stays as it was,
    /// whatever is answered, and at most room is reserved.
    ///
    /// The refusals are those of `step`.
    pub fn prepare(&mut self, edit: &Edit) -> Result<Prepared, Refusal>
        requires line { IsLine edit.now }
        requires may { MayStep self.old }
        ensures prepared { (s : State) → Spells self.old s → IsPrepared result (step s edit.now) }
        ensures stays { Stays self.old self.new }
        ensures ready { IfOk result (λ p. (p.lists ≡ self.new) × (p.edit ≡ edit.now)) }
    {
        match plan_for(&mut self.kept, edit) {
            Ok(plan) => Ok(Prepared {
                plan,
                lists: Snapshot::of(self),
                edit: Snapshot::of(edit),
            }),
            Err(refusal) => Err(refusal),
        }
    }

    /// Does an edit that was made ready. It takes no memory.
    pub fn finish(&mut self, prepared: Prepared) -> Done
        requires { self.old ≡ prepared.lists }
        ensures { (s : State) → Spells self.old s → IsFinished self.new result (step s prepared.edit) }
    {
        carry(&mut self.kept, prepared.plan)
    }

    /// Applies an edit: the first refusal that applies in the order of the state's step, or the next state
    /// with what was done.
    ///
    /// Each refusal comes exactly where its condition holds and none before it in the edit's order applies,
    /// and changes nothing (`specs/Refusals.antt` of filter_state has the conditions, `specs/Steps.antt`
    /// their order). `NoMemory`: none applies, and memory was refused.
    pub fn step(&mut self, edit: &Edit) -> Result<Done, Refusal>
        requires line { IsLine edit.now }
        requires may { MayStep self.old }
        ensures { (s : State) → Spells self.old s → IsStepped self.old self.new result (step s edit.now) }
    {
        apply(&mut self.kept, edit)
    }
}
