//! What a root's word says: the first block's number plus 1, or 0, in the low half, and the stamp in the high
//! half.
ghost use Rattle.std.specs.Prelude.{◌≡◌, ◌+◌, ◌*◌, ◌/◌, ◌%◌, ◌^◌, ◌<◌, ◌≤◌};
ghost use Rattle.pin_store.specs.Layout.{first_of, block_in};

use tc_base::Point;

/// What a root names: the first block of its chain, or None for the empty chain, and the stamp.
#[derive(Clone, Copy, Debug, PartialEq, Eq)]
pub struct RootWord {
    pub first: Option<u32>,
    pub stamp: Point,
}

impl RootWord {
    pub(crate) fn of_word(word: u64) -> RootWord
        ensures first { result.first ≡ block_in (word % 2 ^ 32) }
        ensures stamp { result.stamp ≡ word / 2 ^ 32 }
    {
        let first = (word % (1 << 32)) as u32;
        RootWord {
            first: first.checked_sub(1),
            stamp: (word / (1 << 32)) as u32,
        }
    }
}

// The word that names this chain.
pub(crate) fn word_naming(chain: &[u32], stamp: Point) -> u64
    requires { first_of chain.now < 2 ^ 32 }
    ensures { result ≡ first_of chain.now + stamp * 2 ^ 32 }
{
    let high = u64::from(stamp) * (1 << 32);
    match chain {
        [] => high,
        [block, ..] => high + u64::from(*block) + 1,
    }
}
