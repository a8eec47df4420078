//! Numbers of a line, each in the range of its place.
ghost use Rattle.std.specs.Prelude.{◌≡◌};
ghost use Rattle.tc_batch.specs.Options.{chain_number, index_number, pref_number};

use act_kinds::CHAIN_MAX;
use line_words::read_number_between;

// A chain, or a place to jump to.
pub(crate) fn read_chain(word: &[u8]) -> Option<u32>
    ensures { result ≡ chain_number word.now }
{
    read_number_between(word, 0, CHAIN_MAX)
}

// A handle of a filter, or an index of an action.
pub(crate) fn read_index(word: &[u8]) -> Option<u32>
    ensures { result ≡ index_number word.now }
{
    read_number_between(word, 1, 4_294_967_295)
}

pub(crate) fn read_pref(word: &[u8]) -> Option<u32>
    ensures { result ≡ pref_number word.now }
{
    read_number_between(word, 1, 65_535)
}
