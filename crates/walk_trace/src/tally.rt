//! How often the filters of each edit decided.

use std::alloc::Global;
use std::marker::Model;
use tc_base::{NoMemory, Point};

/// Counts by the numbers of edits. In a clause it is the list of the counts, from that of edit 0 on.
#[derive(Drop)]
pub struct Tally {
    counts: Vec<u64>,
}

impl Model for Tally {
    ghost use Rattle.std.specs.Prelude.{List, ℕ};

    ghost Value = { List ℕ };

    ghost view = { λ t. t.counts.items };
}

impl Tally {
    ghost use Rattle.std.specs.Prelude.{◌≡◌, ◌+◌, ◌<◌, ◌≤◌, ◌^◌, ◌==◌, [], ℕ, length, OnOk, if◌then◌else◌};
    ghost use Rattle.walk_trace.specs.Tallies.{count_at, times_in};

    /// Nothing is counted. It takes no memory yet.
    pub fn new(alloc: Global) -> Tally
        ensures { result ≡ [] }
    {
        Tally {
            counts: Vec::new(alloc),
        }
    }

    /// How often the filters of an edit decided.
    pub fn count(&self, edit: Point) -> u64
        ensures { result ≡ count_at self.now edit }
    {
        self.counts.get(edit as usize).copied().unwrap_or(0)
    }

    /// The filters of these edits decided, each as often as it is there.
    ///
    /// `NoMemory`: memory was refused.
    pub fn note(&mut self, decided: &[Point]) -> Result<(), NoMemory>
        requires { (edit : ℕ) → count_at self.old edit + length decided.now < 2 ^ 64 }
        ensures counts { OnOk result ((edit : ℕ) → count_at self.new edit
            ≡ count_at self.old edit + times_in decided.now edit) }
        ensures few { OnOk result ((edit : ℕ) → count_at self.new edit
            ≤ count_at self.old edit + length decided.now) }
    {
        for edit in decided {
            self.add(*edit)?;
        }
        Ok(())
    }

    // One more for that edit.
    fn add(&mut self, edit: Point) -> Result<(), NoMemory>
        requires { count_at self.old edit + 1 < 2 ^ 64 }
        ensures { OnOk result ((other : ℕ) → count_at self.new other
            ≡ (if other == edit then count_at self.old other + 1 else count_at self.old other)) }
    {
        let place = edit as usize;
        if self.counts.len() <= place {
            self.counts.resize(place + 1, 0)?;
        }
        self.counts[place] += 1;
        Ok(())
    }
}
