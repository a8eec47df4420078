//! The rows of a mask.

use arrayvec::ArrayVec;
use std::marker::Model;

/// The numbers of the rows that hold a mask's buckets, in order: 64 at most.
#[derive(Drop)]
pub struct RowNumbers {
    rows: ArrayVec<u32, 64>,
}

impl Model for RowNumbers {
    ghost use Rattle.std.specs.Prelude.{◌≤◌, ℕ, List, length};

    ghost Value = { List ℕ };

    ghost view = { λ r. r.rows.items };

    ghost invariant = { λ r. length r.rows.items ≤ 64 };
}

impl RowNumbers {
    ghost use Rattle.std.specs.Prelude.{◌≡◌, ◌<◌, ◌≤◌, ◌++◌, ◌∷◌, [], length};

    /// No rows.
    pub fn new() -> RowNumbers
        ensures { result ≡ [] }
    {
        RowNumbers {
            rows: ArrayVec::new(),
        }
    }

    /// Lets all rows go.
    pub fn clear(&mut self)
        ensures { self.new ≡ [] }
    {
        self.rows.clear();
    }

    /// Puts a row behind those that are there, fewer than 64.
    pub fn push(&mut self, row: u32)
        requires { length self.old < 64 }
        ensures { self.new ≡ self.old ++ row ∷ [] }
    {
        self.rows.push(row);
    }

    /// The rows, in order.
    pub fn items(&self) -> &[u32]
        ensures same { result.now ≡ self.now }
        ensures few { length self.now ≤ 64 }
    {
        self.rows.as_slice()
    }
}
