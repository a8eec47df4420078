//! A count of loads that takes no bytes.
ghost use Rattle.std.specs.Prelude.{◌≡◌, ◌+◌, ◌<◌};

use std::marker::Model;
use std::sync::ledger::{Blank, Book, Ledger, Share};

/// How many loads were made with it, in the ledger `M`. It exists for bounds in contracts: it takes no bytes,
/// and counting does nothing when the program runs.
#[derive(Drop)]
pub struct Steps<M: Ledger> {
    book: Book<M>,
    share: Share<M>,
}

impl<M: Ledger> Model for Steps<M> {
    ghost use Rattle.std.specs.Prelude.{ℕ, ◌<◌};

    ghost Value = { ℕ };

    ghost view = { λ s. s.book.total };

    ghost invariant = { λ s. 0 < s.share.parts };
}

impl<M: Ledger> Steps<M> {
    /// A count of 0, in the ledger that the caller picks.
    pub fn new(blank: Blank) -> Steps<M>
        requires { (blank.name ≡ M.name) × (blank.parts ≡ M.parts) × (0 < M.parts) }
        ensures { result ≡ 0 }
    {
        let (book, share) = blank.open::<M>();
        Steps { book, share }
    }

    /// Counts one more.
    pub fn tick(&mut self)
        ensures { self.new ≡ self.old + 1 }
    {
        self.book.add(&mut self.share, 1);
    }
}
