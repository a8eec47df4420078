//! EtherTypes, by their names and numbers.
ghost use Rattle.std.specs.Prelude.{◌≡◌, ◌⊎◌, IfSome};
ghost use Rattle.std.specs.Option.{option_or};
ghost use Rattle.line_words.specs.Forms.{tpid_of, has_mark, ether_number_of, ether_type_of};

use crate::ether_names::names;
use tc_words::{is_text, read_hex};

const IP: u16 = 0x0800;

const IPV6: u16 = 0x86DD;

const ARP: u16 = 0x0806;

const CUSTOMER: u16 = 0x8100;

const SERVICE: u16 = 0x88A8;

/// The EtherType of a VLAN tag by the name of its standard: `802.1Q` or `802.1q` is 0x8100, and `802.1ad` or
/// `802.1AD` is 0x88A8 (IEEE 802.1Q, clause 9.5, table 9-1; tc-vlan(8), `protocol`).
///
/// `None` for any other word.
#[tactic(auto, unfolding(crate::specs::Forms::tpid_of))]
pub fn read_tpid(word: &[u8]) -> Option<u16>
    ensures value { result ≡ tpid_of word.now }
    ensures tags { IfSome result (λ n. (n ≡ 0x8100) ⊎ (n ≡ 0x88A8)) }
{
    if names(word, CUSTOMER) || is_text(word, "802.1q") {
        Some(CUSTOMER)
    } else if names(word, SERVICE) || is_text(word, "802.1AD") {
        Some(SERVICE)
    } else {
        None
    }
}

fn has_mark(word: &[u8]) -> bool
    ensures { result ≡ has_mark word.now }
{
    word.len() > 1 && word[0] == b'0' && word[1] == b'x'
}

// A number stands behind `0x` alone, since `ad` or `face` would else be one.
fn read_ether_number(word: &[u8]) -> Option<u16>
    ensures { result ≡ ether_number_of word.now }
{
    if !has_mark(word) {
        return None;
    }
    let number = read_hex(word, 4)?;
    Some(number as u16)
}

fn read_tag_or_number(word: &[u8]) -> Option<u16>
    ensures { result ≡ option_or (tpid_of word.now) (ether_number_of word.now) }
{
    match read_tpid(word) {
        Some(tag) => Some(tag),
        None => read_ether_number(word),
    }
}

/// The EtherType that a word names: `ip` or `ipv4`, `ipv6`, `arp`, a VLAN tag as `read_tpid` takes it (IANA,
/// IEEE 802 Numbers), or the number itself in 1 to 4 hexadecimal digits of either case behind `0x`.
///
/// `None` for any other word, a number without `0x` and one with `0X` too.
#[tactic(auto, unfolding(crate::specs::Forms::ether_type_of))]
pub fn read_ether_type(word: &[u8]) -> Option<u16>
    ensures { result ≡ ether_type_of word.now }
{
    if names(word, IP) || is_text(word, "ipv4") {
        Some(IP)
    } else if names(word, IPV6) {
        Some(IPV6)
    } else if names(word, ARP) {
        Some(ARP)
    } else {
        read_tag_or_number(word)
    }
}
