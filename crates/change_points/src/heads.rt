//! The tables of a hook at the points of a change.
ghost use Rattle.std.specs.Prelude.{◌≡◌, map, Some};
ghost use Rattle.std.specs.Bool.{Decides};
ghost use Rattle.filter_tables.specs.Rows.{tables_on};
ghost use Rattle.hook_lists.specs.States.{both_of, AreKept};
ghost use Rattle.slot_pasts.specs.Pasts.{value_at};
ghost use Rattle.head_laws.specs.Heads.{head_of};

use crate::kept_tables::KeptTables;
use filter_lists::Lists;
use slot_pasts::Past;
use std::alloc::Global;
use std::marker::Model;
use tc_base::{Hook, NoMemory, Point};
use visit_room::HeadRoom;

/// The tables of a hook as they stood at each point from that before a change on.
#[derive(Drop)]
pub struct HookHeads {
    alloc: Global,
    hook: Hook,
    before: Point,
    point: Point,
    past: Past<KeptTables>,
}

impl Model for HookHeads {
    ghost use Rattle.change_points.specs.Heads.{Heads};
    ghost use Rattle.change_points.specs.Changes.{AreChanges};

    ghost Value = { Heads };

    ghost view = { λ h. record {
      hook = h.hook;
      before = h.before;
      point = h.point;
      past = h.past;
    } };

    ghost invariant = { λ h. AreChanges h.before h.point h.past };
}

impl HookHeads {
    ghost use Rattle.std.specs.Prelude.{◌≡◌, ◌^◌, ◌<◌, ◌+◌, ◌++◌, ◌∷◌, [], List, length, Some, None};
    ghost use Rattle.std.specs.Prelude.{IfOk, OnOk, OnErr, if◌then◌else◌};
    ghost use Rattle.filter_state.specs.declared.edit.Edit.{Edit};
    ghost use Rattle.filter_state.specs.States.{no_state};
    ghost use Rattle.filter_state.specs.Tables.{hook_eq};
    ghost use Rattle.filter_state.specs.Journals.{state_from};
    ghost use Rattle.filter_lists.specs.Spells.{Spells};
    ghost use Rattle.walk_steps.specs.Told.{heads_told};
    ghost use Rattle.state_past.specs.NextChange.{IsNextChange};
    ghost use Rattle.change_points.specs.Heads.{told_at, KnowsHeads};

    /// The tables of a hook in lists that stand at the point before a change.
    ///
    /// `NoMemory`: memory was refused.
    pub fn begin(
        alloc: Global,
        lists: &Lists,
        hook: Hook,
        before: Point,
    ) -> Result<HookHeads, NoMemory>
        ensures of { IfOk result (λ heads. (heads.hook ≡ hook) × (heads.before ≡ before)) }
        ensures knows { (journal : List Edit) → length journal ≡ before
            → Spells lists.now (state_from no_state journal)
            → IfOk result (λ heads. KnowsHeads heads journal) }
    {
        let mut past = Past::new(alloc);
        past.put(before, KeptTables::of(alloc, lists, hook)?)?;
        Ok(HookHeads {
            alloc,
            hook,
            before,
            point: before,
            past,
        })
    }

    /// Takes note of the tables behind one edit more, by lists that stand there.
    ///
    /// `NoMemory`: memory was refused, and nothing changed.
    pub fn note(&mut self, lists: &Lists) -> Result<(), NoMemory>
        requires few { self.old.point + 1 < 2 ^ 32 }
        ensures of { (self.new.hook ≡ self.old.hook) × (self.new.before ≡ self.old.before) }
        ensures point { OnOk result (self.new.point ≡ self.old.point + 1) }
        ensures knows { (journal : List Edit) (edit : Edit) → KnowsHeads self.old journal
            → Spells lists.now (state_from no_state (journal ++ (edit ∷ [])))
            → OnOk result (KnowsHeads self.new (journal ++ (edit ∷ []))) }
        ensures kept { OnErr result (self.new ≡ self.old) }
    {
        let point = self.point + 1;
        if !stood_so(&self.past, self.point, lists, self.hook) {
            let tables = KeptTables::of(self.alloc, lists, self.hook)?;
            self.past.put(point, tables)?;
        }
        self.point = point;
        Ok(())
    }

    /// Whether these are the tables of that hook.
    pub(crate) fn are_of(&self, hook: Hook) -> bool
        ensures { result ≡ hook_eq hook self.now.hook }
    {
        hook == self.hook
    }

    /// Tells the tables as they stood at a point, where that isn't before the change.
    pub(crate) fn tell(&self, point: Point, into: &mut HeadRoom) -> bool
        ensures { told_at self.now point ≡ (if result then Some (heads_told into.new.tables) else None) }
    {
        match self.past.at(point) {
            Some(kept) => {
                kept.tell(into);
                true
            }
            None => false,
        }
    }

    /// The first point behind that one at which the tables are others than there.
    pub(crate) fn after(&self, point: Point) -> Option<Point>
        ensures { IsNextChange (told_at self.now) point result }
    {
        self.past.after(point)
    }
}

// Whether the tables of a hook in the lists are those that stood at a point.
fn stood_so(past: &Past<KeptTables>, point: Point, lists: &Lists, hook: Hook) -> bool
    ensures same { Decides result (value_at point past.now
        ≡ Some (map head_of (tables_on hook (both_of lists.now)))) }
    ensures kept { AreKept lists.now }
{
    // For the proof: what lists always keep.
    let _actions = lists.actions();
    match past.at(point) {
        Some(tables) => tables.are_of(lists, hook),
        None => false,
    }
}
