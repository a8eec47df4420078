//! A worker of a run, as its packets' lines tell it.

use filter_lists::{Edit, Lists, Refusal};
use std::alloc::Global;
use tc_base::{NoMemory, Point};

/// What a worker has seen, and lists that stand at the first point of its last walk. No walk of a worker
/// begins before a point that it saw, so its lists never have to go back.
#[derive(Drop)]
pub struct Walker {
    /// The lists behind so many edits of the journal.
    pub lists: Lists,
    pub at: Point,
    /// The greatest point of its walks.
    pub seen: Point,
}

impl Walker {
    ghost use Rattle.std.specs.Prelude.{◌≡◌, ◌≤◌, length, OnOk};
    ghost use Rattle.batch_run.specs.declared.limit.TheConstants.{COMMANDS_MAX};
    ghost use Rattle.filter_state.specs.States.{no_state};
    ghost use Rattle.filter_state.specs.Journals.{state_at, IsLawful};
    ghost use Rattle.filter_lists.specs.Spells.{Spells};

    /// A worker that walked no packet.
    pub fn new(alloc: Global) -> Walker
        ensures lists { Spells result.lists no_state }
        ensures points { (result.at ≡ 0) × (result.seen ≡ 0) }
    {
        Walker {
            lists: Lists::new(alloc),
            at: 0,
            seen: 0,
        }
    }

    /// Takes the lists to a point of the journal that isn't behind them.
    pub fn follow(&mut self, journal: &[Edit], point: Point) -> Result<(), NoMemory>
        requires lawful { IsLawful journal.now }
        requires short { length journal.now ≤ COMMANDS_MAX }
        requires lists { Spells self.old.lists (state_at self.old.at journal.now) }
        requires points { (self.old.at ≤ point) × (point ≤ length journal.now) }
        ensures lists { OnOk result (Spells self.new.lists (state_at point journal.now)) }
        ensures at { OnOk result (self.new.at ≡ point) }
        ensures seen { self.new.seen ≡ self.old.seen }
    {
        while self.at < point {
            match self.lists.step(&journal[self.at as usize]) {
                Ok(_) => {}
                Err(refusal) => match refusal {
                    Refusal::NoMemory(memory) => return Err(memory),
                    // The journal is lawful: each of its edits is accepted behind those before it.
                    _ => unreachable!(),
                },
            }
            self.at += 1;
        }
        Ok(())
    }
}
