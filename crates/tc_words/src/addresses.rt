//! IPv4 addresses and prefixes.
ghost use Rattle.std.specs.Prelude.{◌≡◌, ◌≤◌, IfSome};
ghost use Rattle.tc_words.specs.Numbers.{decimal_of};
ghost use Rattle.tc_words.specs.Addresses.{joined_octets, address_of, prefix_mask, masked_prefix, ipv4_of};

use crate::cuts::{cut_at, cut_near};
use crate::read_decimal;

fn read_octet(text: &[u8]) -> Option<u8>
    ensures { result ≡ decimal_of text.now 255 }
{
    match read_decimal(text, 255) {
        Some(octet) => Some(octet as u8),
        None => None,
    }
}

fn join_octets(
    first: Option<u8>,
    second: Option<u8>,
    third: Option<u8>,
    fourth: Option<u8>,
) -> Option<u32>
    ensures { result ≡ joined_octets first second third fourth }
{
    Some(u32::from_be_bytes([first?, second?, third?, fourth?]))
}

fn read_address(text: &[u8]) -> Option<u32>
    ensures { result ≡ address_of text.now }
{
    let (first, rest) = cut_near(text, b'.')?;
    let (second, rest) = cut_near(rest, b'.')?;
    let (third, fourth) = cut_near(rest, b'.')?;
    join_octets(
        read_octet(first),
        read_octet(second),
        read_octet(third),
        read_octet(fourth),
    )
}

// The mask of a prefix of so many bits.
fn mask_of(length: u32) -> u32
    requires { length ≤ 32 }
    ensures { result ≡ prefix_mask length }
{
    ((1u64 << 32) - (1u64 << (32 - length))) as u32
}

fn masked(address: Option<u32>, length: Option<u32>) -> Option<(u32, u32)>
    requires { IfSome length (λ n. n ≤ 32) }
    ensures { result ≡ masked_prefix address length }
{
    let address = address?;
    let mask = mask_of(length?);
    Some((address & mask, mask))
}

/// The address AND the mask, and then the mask, of an IPv4 address in dotted decimal (RFC 1123, section 2.1),
/// alone or with `/` and the length of a prefix (RFC 4632, section 3.1) behind it. An address alone has all
/// 32 bits in its mask.
///
/// `None` where the word is of no such form: each number is decimal without a needless 0 in front, an octet
/// is at most 255, and a length at most 32.
pub fn read_ipv4(word: &[u8]) -> Option<(u32, u32)>
    ensures { result ≡ ipv4_of word.now }
{
    match cut_at(word, b'/') {
        Some((address, length)) => masked(read_address(address), read_decimal(length, 32)),
        None => masked(read_address(word), Some(32)),
    }
}
