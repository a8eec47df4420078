//! An edit is applied.
ghost use Rattle.std.specs.Prelude.{◌≡◌, ◌<◌, ◌+◌, ◌^◌, ℕ, length, Ok, Err};
ghost use Rattle.store_history.specs.History.{edits_of};
ghost use Rattle.pin_store.specs.Calls.{sheet_of, IsSeatOf};
ghost use Rattle.filter_state.specs.declared.refusal.Done.{Done as ADone};
ghost use Rattle.filter_state.specs.declared.refusal.Refusal.{Refusal as ARefusal};
ghost use Rattle.filter_state.specs.Lines.{IsLine};
ghost use Rattle.filter_lists.specs.Edits.{MayStep};
ghost use Rattle.desk_needs.specs.declared.pool.Pool.{Pool};
ghost use Rattle.desk_actions.specs.OfLedgers.Kept.{commits};
ghost use Rattle.shared_hook.specs.OfPlans.Done.{IsDone};
ghost use Rattle.shared_hook.specs.OfPlans.Plans.{IsPlan, IsReadyFor};
ghost use Rattle.shared_hook.specs.declared.fault.ApplyFault.TheVariants as faults;
ghost use Rattle.shared_hook.specs.Views.{view_of, journal};
ghost use Rattle.shared_hook.specs.Begun.{IsCounted};
ghost use Rattle.shared_hook.specs.Applied.{stepped, IsApplied, IsRefused, IsHeld};

use crate::beginning::{Begun, begin};
use crate::clearing::{Hindrance, make_room};
use crate::desk::Desk;
use crate::fault::ApplyFault;
use crate::named::{Edited, Named};
use crate::short::Short;
use desk_parts::Parts;
use filter_lists::Done;
use filter_state::Edit;
use hook_store_law::HookStore;
use std::alloc::Global;
use std::marker::Brand;

// Does an edit that was begun, for which there is room. Its commit carries the edit that `E` names.
fn do_edit<E: Edited>(parts: &mut Parts, store: &HookStore, edit: &Edit, begun: Begun) -> Done
    requires store { IsSeatOf store.now parts.old.ledger.writer.place }
    requires edit { edit.now ≡ E.edit }
    requires ready { IsReadyFor parts.old E.edit begun.prepared }
    requires plan { IsPlan (commits parts.old.ledger) E.edit begun.plan }
    ensures store { IsSeatOf store.now parts.new.ledger.writer.place }
    ensures done { IsDone parts.old parts.new E.edit result }
{
    let Begun { prepared, plan, .. } = begun;
    plan.carry_out::<Named<E>>(parts, store, edit, prepared)
}

// The fault where an edit is held.
fn held(hindrance: Hindrance) -> ApplyFault
    ensures { result ≡ faults.Held hindrance.short.pool hindrance.reader hindrance.pin
        hindrance.short.needed hindrance.short.free }
{
    let Hindrance { short, reader, pin } = hindrance;
    let Short { pool, needed, free } = short;
    ApplyFault::Held {
        pool,
        reader,
        pin,
        needed,
        free,
    }
}

// Applies the edit that `E` names to the parts of a desk.
fn apply_as<E: Edited>(
    alloc: Global,
    parts: &mut Parts,
    store: &HookStore,
    edit: &Edit,
) -> Result<Done, ApplyFault>
    requires store { IsSeatOf store.now parts.old.ledger.writer.place }
    requires edit { edit.now ≡ E.edit }
    requires desk { IsCounted parts.old }
    requires line { IsLine edit.now }
    requires may { MayStep parts.old.ledger.lists }
    requires few { ((sheet_of parts.old.ledger.writer.place).epoch < 2 ^ 61)
        × (length (edits_of (commits parts.old.ledger)) + 1 < 2 ^ 32) }
    ensures store { IsSeatOf store.now parts.new.ledger.writer.place }
    ensures desk { IsCounted parts.new }
    ensures applied { (done : ADone) → result ≡ Ok done
        → IsApplied (view_of parts.old) (view_of parts.new) edit.now done }
    ensures refused { (refusal : ARefusal) → result ≡ Err (faults.Refused refusal)
        → IsRefused (view_of parts.old) (view_of parts.new) edit.now refusal }
    ensures held { (pool : Pool) (reader pin needed free : ℕ)
        → result ≡ Err (faults.Held pool reader pin needed free)
        → IsHeld (view_of parts.old) (view_of parts.new) edit.now pool reader pin needed free }
{
    let begun = match begin(alloc, parts, edit) {
        Ok(begun) => begun,
        Err(refusal) => return Err(ApplyFault::Refused(refusal)),
    };
    match make_room(parts, store, &begun.needs) {
        Some(hindrance) => {
            drop(begun);
            Err(held(hindrance))
        }
        None => Ok(do_edit::<E>(parts, store, edit, begun)),
    }
}

impl Desk {
    /// Applies an edit: it stands then once, at the end of the journal, and the lists are the state there.
    ///
    /// `Refused`: exactly where the plain step refuses the edit, and for its reason; or, where that accepts
    /// it, for want of memory. `Held`: a pool is short of what the edit needs, also after tidying, and a
    /// reader is inside. In both cases the edit stands nowhere, and may be tried again. All memory is taken
    /// before the first commit, and the call doesn't wait.
    pub fn try_apply(&mut self, store: &HookStore, edit: &Edit) -> Result<Done, ApplyFault>
        requires store { IsSeatOf store.now self.old.place }
        requires line { IsLine edit.now }
        requires may { MayStep self.old.lists }
        requires few { ((sheet_of self.old.place).epoch < 2 ^ 61)
            × (length (journal self.old) + 1 < 2 ^ 32) }
        ensures store { IsSeatOf store.now self.new.place }
        ensures applied { (done : ADone) → result ≡ Ok done → IsApplied self.old self.new edit.now done }
        ensures refused { (refusal : ARefusal) → result ≡ Err (faults.Refused refusal)
            → IsRefused self.old self.new edit.now refusal }
        ensures held { (pool : Pool) (reader pin needed free : ℕ)
            → result ≡ Err (faults.Held pool reader pin needed free)
            → IsHeld self.old self.new edit.now pool reader pin needed free }
        ensures exact { (refusal : ARefusal) → stepped self.old edit.now ≡ Err refusal
            → result ≡ Err (faults.Refused refusal) }
    {
        apply_as::<Brand>(self.alloc, &mut self.parts, store, edit)
    }
}
