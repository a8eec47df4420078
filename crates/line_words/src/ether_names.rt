//! EtherTypes by name: the one table by which lines are read and printed.
ghost use Rattle.std.specs.Prelude.{◌≡◌, Some, None, IfSome, IfNone};
ghost use Rattle.line_words.specs.EtherNames.{ether_name, is_the_name};

use tc_words::is_text;

/// The name of an EtherType that has one (IANA, IEEE 802 Numbers; IEEE 802.1Q, clause 9.5, table 9-1).
pub fn ether_name(number: u16) -> Option<&'static str>
    ensures some { IfSome result (λ name. ether_name number ≡ Some name.now) }
    ensures none { IfNone result (ether_name number ≡ None) }
{
    match number {
        0x0800 => Some("ip"),
        0x86DD => Some("ipv6"),
        0x0806 => Some("arp"),
        0x8100 => Some("802.1Q"),
        0x88A8 => Some("802.1ad"),
        _ => None,
    }
}

/// Whether a word is the name of that EtherType.
pub(crate) fn names(word: &[u8], number: u16) -> bool
    ensures { result ≡ is_the_name word.now (ether_name number) }
{
    match ether_name(number) {
        Some(name) => is_text(word, name),
        None => false,
    }
}
