//! The readers of a new hook.
ghost use Rattle.std.specs.Prelude.{◌≡◌, ◌∷◌, [], MatchOption};

use hook_reader::HookReader;
use std::collections::VecDeque;

/// The readers that nobody took yet, by rising numbers.
#[derive(Drop)]
pub struct Passes {
    pub left: VecDeque<HookReader>,
}

impl Passes {
    /// The reader with the least number that was not taken yet, and None where all eight were taken.
    pub fn take(&mut self) -> Option<HookReader>
        ensures { MatchOption result
            ((self.old.left.items ≡ []) × (self.new.left.items ≡ []))
            (λ reader. self.old.left.items ≡ reader ∷ self.new.left.items) }
    {
        self.left.pop_front()
    }
}
