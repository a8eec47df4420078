//! The kinds of actions by name: the one table by which lines are read and printed.
ghost use Rattle.std.specs.Prelude.{◌≡◌};
ghost use Rattle.std.specs.Str.{bytes_eq};
ghost use Rattle.tc_batch.specs.KindNames.{kind_text};
ghost use Rattle.tc_batch.specs.ActionKeywords.{kind_word};

use act_kinds::Kind;
use tc_words::is_text;

/// The module of tc that a kind is named after.
pub fn kind_name(kind: Kind) -> &'static str
    ensures { result.now ≡ kind_text kind }
{
    match kind {
        Kind::Gact => "gact",
        Kind::Vlan => "vlan",
        Kind::Skbedit => "skbedit",
    }
}

fn names(word: &[u8], kind: Kind) -> bool
    ensures { result ≡ bytes_eq word.now (kind_text kind) }
{
    is_text(word, kind_name(kind))
}

pub(crate) fn read_kind(word: &[u8]) -> Option<Kind>
    ensures { result ≡ kind_word word.now }
{
    if names(word, Kind::Gact) {
        Some(Kind::Gact)
    } else if names(word, Kind::Vlan) {
        Some(Kind::Vlan)
    } else if names(word, Kind::Skbedit) {
        Some(Kind::Skbedit)
    } else {
        None
    }
}
