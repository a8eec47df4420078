//! The protocol of a filter, and the protocols over IP.
ghost use Rattle.std.specs.Prelude.{◌≡◌};
ghost use Rattle.line_words.specs.Forms.{protocol_of, ip_protocol_of};
ghost use Rattle.tc_words.specs.Hexadecimal.{marked_hex_of};

use crate::ether_types::read_ether_type;
use tc_base::Proto;
use tc_words::{is_text, read_hex};

/// The protocol of a filter: `all`, or one EtherType as `read_ether_type` takes it (tc(8), `protocol`).
///
/// `None` for any other word.
#[tactic(auto, unfolding(crate::specs::Forms::protocol_of))]
pub fn read_protocol(word: &[u8]) -> Option<Proto>
    ensures { result ≡ protocol_of word.now }
{
    if is_text(word, "all") {
        return Some(Proto::All);
    }
    match read_ether_type(word) {
        Some(ether_type) => Some(Proto::Ether(ether_type)),
        None => None,
    }
}

fn read_octet(word: &[u8]) -> Option<u8>
    ensures { result ≡ marked_hex_of word.now 2 }
{
    let number = read_hex(word, 2)?;
    Some(number as u8)
}

/// The number of a protocol over IP (tc-flower(8), `ip_proto`; IANA, Protocol Numbers): `tcp`, `udp`, `icmp`,
/// `icmpv6` or `sctp`, or the number itself in 1 or 2 hexadecimal digits of either case, with or without `0x`
/// before them. So `17` is 23.
///
/// `None` for any other word.
#[tactic(auto, unfolding(crate::specs::Forms::ip_protocol_of))]
pub fn read_ip_protocol(word: &[u8]) -> Option<u8>
    ensures { result ≡ ip_protocol_of word.now }
{
    if is_text(word, "tcp") {
        Some(6)
    } else if is_text(word, "udp") {
        Some(17)
    } else if is_text(word, "icmp") {
        Some(1)
    } else if is_text(word, "icmpv6") {
        Some(58)
    } else if is_text(word, "sctp") {
        Some(132)
    } else {
        read_octet(word)
    }
}
