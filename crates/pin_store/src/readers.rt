//! The readers of a new store.
ghost use Rattle.std.specs.Prelude.{◌≡◌, ◌∷◌, [], MatchOption};

use crate::reader::Reader;
use std::collections::VecDeque;
use store_history::Law;

/// The readers that were not taken yet, by rising numbers.
#[derive(Drop)]
pub struct Readers<L: Law> {
    pub left: VecDeque<Reader<L>>,
}

impl<L: Law> Readers<L> {
    /// The reader with the least number that was not taken yet, and None where all were taken.
    pub fn take(&mut self) -> Option<Reader<L>>
        ensures { MatchOption result
            ((self.old.left.items ≡ []) × (self.new.left.items ≡ []))
            (λ reader. self.old.left.items ≡ reader ∷ self.new.left.items) }
    {
        self.left.pop_front()
    }
}
