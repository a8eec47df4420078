//! What an edit brings and takes is noted.
ghost use Rattle.std.specs.Prelude.{◌≡◌};
ghost use Rattle.filter_state.specs.declared.refusal.Refusal.TheVariants as refusals;
ghost use Rattle.tc_base.specs.Memory.{no_memory};

use crate::actions::{changed_action, put_changed, put_made};
use crate::filters::{put_filter, take_filters};
use crate::origins::Origins;
use edit_lines::Line;
use filter_lists::{Edit, Lists, Refusal};
use slot_pasts::{SerialPasts, SlotPasts};
use state_past::coming_in;
use state_past::gone_filters::filters_going;
use std::alloc::Global;
use tc_base::NoMemory;

impl Origins {
    ghost use Rattle.std.specs.Prelude.{◌≡◌, ℕ, suc, List, [], OnOk};
    ghost use Rattle.filter_origins.specs.Entries.{Entry};
    ghost use Rattle.filter_origins.specs.Noted.{Follows, IsNext};

    /// Nothing is known of no edits.
    pub(crate) fn none(alloc: Global) -> Origins
        ensures slots { result.slots ≡ [] }
        ensures actions { result.actions ≡ [] }
        ensures brought { result.brought.items ≡ [] }
    {
        Origins {
            alloc,
            slots: SlotPasts::new(alloc),
            actions: SerialPasts::new(alloc),
            brought: Vec::new(alloc),
        }
    }

    /// The next edit of a journal is done to the lists, and what it brings and takes is noted.
    pub(crate) fn follow(
        &mut self,
        lists: &mut Lists,
        edit: &Edit,
        by: Line,
    ) -> Result<(), NoMemory>
        requires { (entries : List Entry) × (count : ℕ) × Follows self.old lists.old entries count
            × IsNext entries count edit.now by }
        ensures { (entries : List Entry) (count : ℕ) → Follows self.old lists.old entries count
            → IsNext entries count edit.now by
            → OnOk result (Follows self.new lists.new entries (suc count)) }
    {
        let made = lists.actions().made();
        let changed = changed_action(lists, edit);
        let going = filters_going(self.alloc, lists, edit)?;
        let done = match lists.step(edit) {
            Ok(done) => done,
            Err(refusal) => return Err(memory_of(refusal)),
        };
        take_filters(&self.slots, &mut self.brought, by.edit, &going);
        let coming = coming_in(lists, edit, &done);
        put_filter(&mut self.slots, &mut self.brought, &coming, by)?;
        put_changed(&mut self.actions, changed, by)?;
        put_made(&mut self.actions, made, lists.actions().made(), by)
    }
}

// An edit of a lawful journal is refused for want of memory alone.
fn memory_of(refusal: Refusal) -> NoMemory
    requires { refusal ≡ refusals.NoMemory no_memory }
{
    match refusal {
        Refusal::NoMemory(memory) => memory,
        _ => unreachable!(),
    }
}
