//! What the times of a packet's fates make of it.
ghost use Rattle.std.specs.Prelude.{◌≡◌};
ghost use Rattle.std.specs.List.{list_any};
ghost use Rattle.walk_fate_laws.specs.Kinds.{is_between, is_mixed, kind_of};

use walk_fate_laws::{Kind, When};

/// Whether some fate was not seen in one state.
pub(crate) fn is_one_mixed(whens: &[When]) -> bool
    ensures { result ≡ list_any is_mixed whens.now }
{
    whens.iter().any(|when| is_mixed(*when))
}

// Whether some fate was seen between alone.
fn is_one_between(whens: &[When]) -> bool
    ensures { result ≡ list_any is_between whens.now }
{
    whens.iter().any(|when| is_between(*when))
}

fn is_mixed(when: When) -> bool
    ensures { result ≡ is_mixed when }
{
    matches!(when, When::Mixed)
}

fn is_between(when: When) -> bool
    ensures { result ≡ is_between when }
{
    matches!(when, When::Between)
}

/// The kind of a packet by the times of its fates, where there are more ways or no more.
pub(crate) fn kind_of(more: bool, whens: &[When]) -> Kind
    ensures { result ≡ kind_of more whens.now }
{
    if is_one_between(whens) {
        Kind::Between
    } else if is_one_mixed(whens) {
        Kind::Mixed
    } else if more {
        Kind::Open
    } else if whens.len() == 1 {
        Kind::Steady
    } else {
        Kind::Moved
    }
}
