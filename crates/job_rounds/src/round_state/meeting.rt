//! What becomes of one command line at a desk.
ghost use Rattle.std.specs.Prelude.{◌≡◌, ◌≤◌, ◌<◌, ◌+◌, ◌^◌, ◌++◌, ℕ, length, vec_len, vec_capacity};
ghost use Rattle.std.specs.Prelude.{IfOk, IfErr, OnErr, Ok, Err};
ghost use Rattle.tc_words.specs.Lines.{words_of};
ghost use Rattle.filter_state.specs.declared.refusal.Done.{Done as ADone};
ghost use Rattle.filter_state.specs.declared.refusal.Refusal.{Refusal as ARefusal};
ghost use Rattle.filter_state.specs.Lines.{IsLine};
ghost use Rattle.round_terms.specs.TheConstants.{COMMANDS_MAX};
ghost use Rattle.pin_store.specs.Calls.{sheet_of, IsSeatOf};
ghost use Rattle.desk_needs.specs.declared.pool.Pool.{Pool as APool};
ghost use Rattle.shared_hook.specs.declared.fault.ApplyFault.TheVariants as faults;
ghost use Rattle.shared_hook.specs.Views.{journal};
ghost use Rattle.shared_hook.specs.Applied.{IsApplied, IsRefused, IsHeld};
ghost use Rattle.round_terms.specs.Underway.{made_behind, IsMet};
ghost use Rattle.job_rounds.specs.OfRoundState.Turns.{IsNotMet};

use crate::round_state::turned::Turned;
use filter_state::{Done, Edit, LINE_ACTIONS_MAX, Refusal};
use hook_store_law::HookStore;
use round_terms::{EventKind, MadeAction, push_new_names};
use shared_hook::{ApplyFault, Desk};
use std::alloc::Global;
use tc_batch::{LineFault, line};

// Applies an edit, and puts the names of the actions that it made behind those that are there, in room that
// was reserved: so nothing fails behind an edit that was accepted.
fn apply_named(
    desk: &mut Desk,
    store: &HookStore,
    made: &mut Vec<MadeAction>,
    edit: &Edit,
) -> Result<Done, ApplyFault>
    requires store { IsSeatOf store.now desk.old.place }
    requires line { IsLine edit.now }
    requires few { (sheet_of desk.old.place).epoch < 2 ^ 61 }
    requires short { length (journal desk.old) < COMMANDS_MAX }
    requires room { vec_len made.old + LINE_ACTIONS_MAX ≤ vec_capacity made.old }
    ensures store { IsSeatOf store.now desk.new.place }
    ensures applied { (done : ADone) → result ≡ Ok done → IsApplied desk.old desk.new edit.now done }
    ensures named { IfOk result (λ done. made.new.items
        ≡ made.old.items ++ made_behind (journal desk.old) (journal desk.new)) }
    ensures refused { (refusal : ARefusal) → result ≡ Err (faults.Refused refusal)
        → IsRefused desk.old desk.new edit.now refusal }
    ensures held { (pool : APool) (reader pin needed free : ℕ)
        → result ≡ Err (faults.Held pool reader pin needed free)
        → IsHeld desk.old desk.new edit.now pool reader pin needed free }
    ensures unnamed { OnErr result (made.new ≡ made.old) }
{
    let before = desk.lists().actions().made();
    let done = match desk.try_apply(store, edit) {
        Ok(done) => done,
        Err(fault) => return Err(fault),
    };
    push_new_names(made, desk.lists().actions().entries(), before);
    Ok(done)
}

/// Reads a line and applies its edit, where it gives one. A line whose edit is held, or for which memory is
/// refused, isn't met, and may be tried again.
pub(crate) fn meet_line(
    alloc: Global,
    desk: &mut Desk,
    store: &HookStore,
    made: &mut Vec<MadeAction>,
    text: &[u8],
) -> Result<EventKind, Turned>
    requires store { IsSeatOf store.now desk.old.place }
    requires few { (sheet_of desk.old.place).epoch < 2 ^ 61 }
    requires short { length (journal desk.old) < COMMANDS_MAX }
    requires room { vec_len made.old + LINE_ACTIONS_MAX ≤ vec_capacity made.old }
    ensures store { IsSeatOf store.now desk.new.place }
    ensures met { IfOk result (λ kind. IsMet (journal desk.old) (journal desk.new) (words_of text.now) kind) }
    ensures named { IfOk result (λ kind. made.new.items
        ≡ made.old.items ++ made_behind (journal desk.old) (journal desk.new)) }
    ensures not_met { IfErr result (IsNotMet desk.old desk.new (words_of text.now)) }
    ensures journal { OnErr result (journal desk.new ≡ journal desk.old) }
    ensures unnamed { OnErr result (made.new ≡ made.old) }
{
    let edit = match line(alloc, text) {
        Ok(edit) => edit,
        Err(LineFault::NoMemory(memory)) => return Err(Turned::NoMemory(memory)),
        Err(LineFault::Syntax { word }) => return Ok(EventKind::Syntax { word }),
    };
    match apply_named(desk, store, made, &edit) {
        Ok(done) => Ok(EventKind::Accepted(done)),
        Err(ApplyFault::Refused(refusal)) => match refusal {
            Refusal::NoMemory(memory) => Err(Turned::NoMemory(memory)),
            _ => Ok(EventKind::Refused(refusal)),
        },
        Err(
            ApplyFault::Held {
                pool,
                reader,
                pin,
                needed,
                free,
            },
        ) => Err(Turned::Held {
            pool,
            reader,
            pin,
            needed,
            free,
        }),
    }
}
