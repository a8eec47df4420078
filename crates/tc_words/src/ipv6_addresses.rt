//! IPv6 addresses and prefixes.
ghost use Rattle.std.specs.Prelude.{◌≡◌, ◌==◌, ◌&&◌, ◌≤◌, ◌<◌, ◌+◌, ◌-◌, ◌*◌, ◌^◌, List, ℕ, length};
ghost use Rattle.std.specs.Prelude.{slice_index, IfSome, Option};
ghost use Rattle.std.specs.List.{slice_split};
ghost use Rattle.std.specs.Option.{option_map};
ghost use Rattle.std.specs.Borrow.{Bor};
ghost use Rattle.tc_words.specs.Groups.{of_just};
ghost use Rattle.tc_words.specs.Ipv6Addresses.{gap_place, cut_at_gap, ipv6_groups, groups_beside};
ghost use Rattle.tc_words.specs.Ipv6Addresses.{joined_around_gap, ipv6_address_of, ipv6_mask, ipv6_halves};
ghost use Rattle.tc_words.specs.Ipv6Addresses.{ipv6_prefix, ipv6_length_behind, ipv6_of};

use crate::cuts::cut_at;
use crate::groups::read_groups;
use crate::read_decimal;

/// An IPv6 prefix: the highest 64 bits of the address, its lowest 64, and how many of the 128 count, from the
/// highest down. An address alone is a prefix of 128 bits.
#[derive(Clone, Copy, Debug, PartialEq, Eq)]
pub struct Ipv6Word {
    pub high: u64,
    pub low: u64,
    pub length: u32,
}

fn are_colons_at(text: &[u8], at: usize) -> bool
    requires { at + 1 < length text.now }
    ensures { result ≡ (slice_index text.now at == 58 && slice_index text.now (at + 1) == 58) }
{
    text[at] == b':' && text[at + 1] == b':'
}

// The place of the first `::`.
fn gap_place(text: &[u8]) -> Option<usize>
    ensures value { result ≡ gap_place text.now }
    ensures inside { IfSome result (λ at. at + 2 ≤ length text.now) }
{
    let mut at = 0;
    while at + 1 < text.len() {
        if are_colons_at(text, at) {
            return Some(at);
        }
        at += 1;
    }
    None
}

// What stands before the first `::`, and what behind it.
fn cut_at_gap(text: &[u8]) -> Option<(&[u8], &[u8])>
    ensures { option_map (λ (parts : Bor (List ℕ) × Bor (List ℕ)). (parts.0.now, parts.1.now)) result
        ≡ cut_at_gap text.now }
{
    match gap_place(text) {
        Some(at) => Some((&text[..at], &text[at + 2..])),
        None => None,
    }
}

fn read_ipv6_groups(text: &[u8]) -> Option<(u32, u128)>
    ensures value { result ≡ ipv6_groups text.now }
    ensures count { IfSome result (λ groups. groups.0 ≤ 8) }
    ensures below { IfSome result (λ groups. groups.1 < 65536 ^ groups.0) }
{
    read_groups(text, 1, 4, 8)
}

fn read_groups_beside(text: &[u8]) -> Option<(u32, u128)>
    ensures value { result ≡ groups_beside text.now }
    ensures count { IfSome result (λ groups. groups.0 ≤ 8) }
    ensures below { IfSome result (λ groups. groups.1 < 65536 ^ groups.0) }
{
    if text.is_empty() {
        return Some((0, 0));
    }
    read_ipv6_groups(text)
}

// The groups before a `::` in the highest places, and those behind it in the lowest.
fn spread(front_count: u32, front: u128, back_count: u32, back: u128) -> u128
    requires counts { front_count + back_count < 8 }
    requires front { front < 65536 ^ front_count }
    requires back { back < 65536 ^ back_count }
    ensures value { result ≡ front * 65536 ^ (8 - front_count) + back }
{
    front * 65536u128.pow(7 - front_count) * 65536 + back
}

fn join_around_gap(front: Option<(u32, u128)>, back: Option<(u32, u128)>) -> Option<u128>
    requires front_count { IfSome front (λ groups. groups.0 ≤ 8) }
    requires front { IfSome front (λ groups. groups.1 < 65536 ^ groups.0) }
    requires back_count { IfSome back (λ groups. groups.0 ≤ 8) }
    requires back { IfSome back (λ groups. groups.1 < 65536 ^ groups.0) }
    ensures { result ≡ joined_around_gap front back }
{
    let (front_count, front) = front?;
    let (back_count, back) = back?;
    if front_count + back_count < 8 {
        Some(spread(front_count, front, back_count, back))
    } else {
        None
    }
}

fn read_whole_address(text: &[u8]) -> Option<u128>
    ensures { result ≡ of_just 8 (ipv6_groups text.now) }
{
    match read_ipv6_groups(text) {
        Some((8, number)) => Some(number),
        _ => None,
    }
}

fn read_address(text: &[u8]) -> Option<u128>
    ensures { result ≡ ipv6_address_of text.now }
{
    match cut_at_gap(text) {
        Some((front, back)) => join_around_gap(read_groups_beside(front), read_groups_beside(back)),
        None => read_whole_address(text),
    }
}

/// The mask of an IPv6 prefix: its highest bits, as many as the length says, are 1 (RFC 4291, section 2.3).
pub fn ipv6_mask(length: u32) -> u128
    requires { length ≤ 128 }
    ensures { result ≡ ipv6_mask length }
{
    if length == 0 {
        return 0;
    }
    u128::MAX - ((1u128 << (128 - length)) - 1)
}

fn halves(number: u128, length: u32) -> Ipv6Word
    ensures { result ≡ ipv6_halves number length }
{
    Ipv6Word {
        high: (number >> 64) as u64,
        low: (number & u128::from(u64::MAX)) as u64,
        length,
    }
}

fn prefix(address: Option<u128>, length: Option<u32>) -> Option<Ipv6Word>
    requires { IfSome length (λ n. n ≤ 128) }
    ensures value { result ≡ ipv6_prefix address length }
    ensures length { IfSome result (λ word. word.length ≤ 128) }
{
    let address = address?;
    let length = length?;
    Some(halves(address & ipv6_mask(length), length))
}

// The length that stands alone behind the slash of a word.
fn read_last_length(text: &[u8]) -> Option<u32>
    ensures value { result ≡ ipv6_length_behind (slice_split (λ b. b == 47) text.now) }
    ensures at_most { IfSome result (λ n. n ≤ 128) }
{
    match cut_at(text, b'/') {
        Some(_) => None,
        None => read_decimal(text, 128),
    }
}

/// The prefix that a word spells: an IPv6 address, alone or with `/` and a length behind it. The bits of the
/// address past the length are 0 in the answer (RFC 4291, section 2.3).
///
/// An address is eight groups of 1 to 4 hexadecimal digits, of either case, with `:` between, where one `::`
/// may stand for one or more groups of 0 (RFC 4291, section 2.2). A length is a decimal number, 0 to 128,
/// without a needless 0 in front.
///
/// `None` where the word is of no such form, and where the address ends in dotted decimal.
pub fn read_ipv6(word: &[u8]) -> Option<Ipv6Word>
    ensures value { result ≡ ipv6_of word.now }
    ensures length { IfSome result (λ word. word.length ≤ 128) }
{
    match cut_at(word, b'/') {
        Some((address, length)) => prefix(read_address(address), read_last_length(length)),
        None => prefix(read_address(word), Some(128)),
    }
}
