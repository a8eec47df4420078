//! The numbering of calls by which the shelf and the sink in memory fail on demand.
ghost use Rattle.std.specs.Prelude.{◌≡◌};
ghost use Rattle.tc_base.specs.Counts.{one_more, is_listed};

use crate::Numbers;

/// Numbers calls from 1, and knows which are to fail. A call has its number as soon as it is made,
/// whatever comes of it.
#[derive(Drop)]
pub(crate) struct Calls {
    fails: Numbers,
    made: u64,
}

impl Calls {
    pub(crate) fn new(fails: Numbers) -> Self
        ensures fails { result.fails ≡ fails }
        ensures made { result.made ≡ 0 }
    {
        Calls { fails, made: 0 }
    }

    /// Counts one more call, and tells whether it is to fail.
    pub(crate) fn next_fails(&mut self) -> bool
        ensures listed { result ≡ is_listed self.old.fails (one_more self.old.made) }
        ensures made { self.new.made ≡ one_more self.old.made }
        ensures fails { self.new.fails ≡ self.old.fails }
    {
        self.made = self.made.saturating_add(1);
        contains(self.fails.as_slice(), self.made)
    }
}

fn contains(numbers: &[u32], number: u64) -> bool
    ensures { result ≡ is_listed numbers.now number }
{
    numbers.iter().any(|n| u64::from(*n) == number)
}
