//! What left becomes free.

use crate::parts::Parts;
use desk_pools::tidying::tidy;
use hook_store_law::HookStore;
use pin_store::Scan;

impl Parts {
    ghost use Rattle.std.specs.Prelude.{◌≡◌, ◌⊎◌, ◌+◌, ◌<◌, ◌^◌};
    ghost use Rattle.store_history.specs.History.{edits_of};
    ghost use Rattle.pin_store.specs.declared.scan.Scan.TheVariants.{Quiet};
    ghost use Rattle.pin_store.specs.Calls.{sheet_of, IsSeatOf};
    ghost use Rattle.pin_store.specs.Found.{FoundIn};
    ghost use Rattle.desk_pools.specs.Pools.{IsNothingLeft};
    ghost use Rattle.desk_pools.specs.OfTidying.Tidied.{IsTwiceIn, Empties, AreTidied};
    ghost use Rattle.desk_actions.specs.OfLedgers.Kept.{commits};
    ghost use Rattle.desk_parts.specs.Desk.{IsDesk};

    /// Begins an epoch and scans the readers twice. Where the second scan is quiet, it empties the roots of
    /// all that left, begins a second epoch and scans twice again. Where that is quiet too, all that left is
    /// free. The answer is that of the last scan: where it isn't `Quiet`, it names the first reader that is
    /// in the way.
    pub fn tidy(&mut self, store: &HookStore) -> Scan
        requires store { IsSeatOf store.now self.old.ledger.writer.place }
        requires desk { IsDesk self.old }
        requires few { (sheet_of self.old.ledger.writer.place).epoch + 1 < 2 ^ 62 }
        ensures store { IsSeatOf store.now self.new.ledger.writer.place }
        ensures desk { IsDesk self.new }
        ensures lists { self.new.ledger.lists ≡ self.old.ledger.lists }
        ensures point { self.new.ledger.point ≡ self.old.ledger.point }
        ensures journal { edits_of (commits self.new.ledger) ≡ edits_of (commits self.old.ledger) }
        ensures seen { Empties self.old.pools (commits self.old.ledger) self.old.ledger.point
            (commits self.new.ledger) }
        ensures tidied { AreTidied self.old.pools self.new.pools }
        ensures quiet { result ≡ Quiet → IsNothingLeft self.new.pools }
        ensures twice { IsTwiceIn (sheet_of self.new.ledger.writer.place).notes result }
        ensures found { FoundIn (sheet_of self.new.ledger.writer.place).notes result }
        ensures epochs { ((sheet_of self.new.ledger.writer.place).epoch
            ≡ (sheet_of self.old.ledger.writer.place).epoch + 1)
            ⊎ ((sheet_of self.new.ledger.writer.place).epoch
            ≡ (sheet_of self.old.ledger.writer.place).epoch + 2) }
        ensures rest { self.new ≡ record self.old {
          ledger = record self.old.ledger { writer = self.new.ledger.writer };
          pools = self.new.pools;
        } }
    {
        tidy(
            &mut self.ledger.writer,
            store,
            &mut self.pools,
            self.ledger.point,
        )
    }
}
