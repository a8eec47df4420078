//! How often each action ran.
ghost use Rattle.run_counts.specs.Counting.{count_of};

use std::alloc::Global;
use std::marker::Model;
use tc_base::NoMemory;
use walk_ends::Count;

/// The counts of all actions, by serial. Room is taken as greater serials come.
#[derive(Drop)]
pub struct RunCounts {
    places: Vec<Count>,
}

impl Model for RunCounts {
    ghost use Rattle.std.specs.Prelude.{List};
    ghost use Rattle.walk_ends.specs.declared.counts.Count.{Count};

    ghost Value = { List Count };

    ghost view = { λ c. c.places.items };
}

impl RunCounts {
    ghost use Rattle.std.specs.Prelude.{◌≡◌, ◌+◌, ◌<◌, ◌≤◌, ◌==◌, ◌^◌, [], ℕ, length, OnOk, if◌then◌else◌};
    ghost use Rattle.walk_steps.specs.Told.{IsShortRun};
    ghost use Rattle.run_counts.specs.Counting.{count_of, counted_in, both, AreAtMost};

    /// Nothing ran.
    pub fn new(alloc: Global) -> RunCounts
        ensures { result ≡ [] }
    {
        RunCounts {
            places: Vec::new(alloc),
        }
    }

    /// How often the action of a serial ran.
    pub fn of(&self, serial: u32) -> Count
        ensures { result ≡ count_of self.now serial }
    {
        match self.places.get(serial as usize) {
            Some(count) => *count,
            None => Count {
                packets: 0,
                bytes: 0,
            },
        }
    }

    // A place for the serial.
    fn make_room(&mut self, serial: u32) -> Result<(), NoMemory>
        ensures room { OnOk result (serial < length self.new) }
        ensures same { OnOk result ((other : ℕ) → count_of self.new other ≡ count_of self.old other) }
    {
        let places = serial as usize + 1;
        if self.places.len() < places {
            let none = Count {
                packets: 0,
                bytes: 0,
            };
            self.places.resize(places, none)?;
        }
        Ok(())
    }

    // Adds one execution, on a frame of that length in bytes.
    fn add_one(&mut self, serial: u32, length: u32) -> Result<(), NoMemory>
        requires packets { (count_of self.old serial).packets + 1 < 2 ^ 64 }
        requires bytes { (count_of self.old serial).bytes + length < 2 ^ 64 }
        ensures { OnOk result ((other : ℕ) → count_of self.new other ≡ (if other == serial
            then both (count_of self.old serial) (record { packets = 1; bytes = length })
            else count_of self.old other)) }
    {
        self.make_room(serial)?;
        let place = serial as usize;
        let count = self.places[place];
        self.places[place] = Count {
            packets: count.packets + 1,
            bytes: count.bytes + u64::from(length),
        };
        Ok(())
    }

    /// Adds the executions of a walk, each a serial and a frame's length in bytes.
    pub fn add(&mut self, executed: &[(u32, u32)]) -> Result<(), NoMemory>
        requires short { IsShortRun executed.now }
        requires few { AreAtMost (2 ^ 62) self.old }
        ensures { OnOk result ((serial : ℕ)
            → count_of self.new serial ≡ both (count_of self.old serial) (counted_in executed.now serial)) }
    {
        for (serial, length) in executed {
            self.add_one(*serial, *length)?;
        }
        Ok(())
    }
}
