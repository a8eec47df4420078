//! A new hook, and who edits it.
ghost use Rattle.std.specs.Prelude.{◌≡◌, IfOk};
ghost use Rattle.pin_store.specs.Calls.{pin_of, IsOutside, IsSeatOf};
ghost use Rattle.desk_parts.specs.Desk.{hook_shape};

use crate::lines::Line;
use crate::trouble::Trouble;
use desk_needs::Pool;
use filter_lists::Done;
use hook_reader::HookReader;
use hook_store_law::HookStore;
use pin_store::Scan;
use shared_hook::{ApplyFault, Desk, make_hook};
use std::alloc::Global;
use tc_base::Point;

/// A hook without a qdisc: its store, its desk and the first of its readers.
pub(crate) fn new_hook(alloc: Global) -> Result<(HookStore, Desk, HookReader), Trouble>
    ensures shape { IfOk result (λ made. made.0.shape ≡ hook_shape) }
    ensures desk { IfOk result (λ made. IsSeatOf made.0 made.1.place) }
    ensures reader { IfOk result (λ made. IsSeatOf made.0 made.2.place) }
    ensures outside { IfOk result (λ made. IsOutside made.2.place × (pin_of made.2.place ≡ 0)) }
{
    let (store, desk, mut passes) = make_hook(alloc)?;
    match passes.take() {
        Some(reader) => {
            drop(passes);
            Ok((store, desk, reader))
        }
        None => {
            drop((store, desk, passes));
            Err(Trouble::NoReader)
        }
    }
}

// More epochs than a test begins, and more edits than it tries.
const FEW_EPOCHS: u64 = 1 << 60;

const FEW_EDITS: u32 = 1 << 31;

/// A desk, with the store of its hook.
#[derive(Drop)]
pub(crate) struct Editor<'a> {
    pub(crate) store: &'a HookStore,
    pub(crate) desk: Desk,
    pub(crate) ghost seat: { IsSeatOf store.now desk.place },
}

/// What a desk counts: blocks that are free, blocks that left, and the edits of its journal.
#[derive(Clone, Copy, Debug, PartialEq, Eq)]
pub(crate) struct Counts {
    pub(crate) free: u32,
    pub(crate) retired: u32,
    pub(crate) edits: Point,
}

impl Editor<'_> {
    /// Tries an edit, and says what the desk answers.
    pub(crate) fn step(&mut self, line: &Line) -> Result<Result<Done, ApplyFault>, Trouble> {
        if self.desk.epochs() >= FEW_EPOCHS
            || self.desk.journal_len() >= FEW_EDITS
            || !self.desk.lists().may_step()
        {
            return Err(Trouble::TooFar);
        }
        Ok(self.desk.try_apply(self.store, &line.edit))
    }

    /// Tidies.
    pub(crate) fn tidy(&mut self) -> Result<Scan, Trouble> {
        if self.desk.epochs() >= FEW_EPOCHS {
            return Err(Trouble::TooFar);
        }
        Ok(self.desk.tidy(self.store))
    }

    /// Tries an edit, which has to be accepted, or not to be for this reason.
    pub(crate) fn expect(&mut self, line: &Line, want: Option<ApplyFault>) -> Result<(), Trouble> {
        let fault = self.step(line)?.err();
        if fault != want {
            return Err(Trouble::Answer(fault));
        }
        Ok(())
    }

    /// Tidies, for which no reader may be in the way.
    pub(crate) fn free_all(&mut self) -> Result<(), Trouble> {
        match self.tidy()? {
            Scan::Quiet => Ok(()),
            pinned => Err(Trouble::Pinned(pinned)),
        }
    }

    /// Counts, which has to come to this.
    pub(crate) fn count(&self, want: Counts) -> Result<(), Trouble> {
        let counts = Counts {
            free: self.desk.free(Pool::Blocks),
            retired: self.desk.retired(Pool::Blocks),
            edits: self.desk.journal_len(),
        };
        if counts != want {
            return Err(Trouble::Counts(counts));
        }
        Ok(())
    }
}
