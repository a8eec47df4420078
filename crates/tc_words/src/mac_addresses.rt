//! The addresses of network cards, with a mask behind them.
ghost use Rattle.std.specs.Prelude.{◌≡◌, ◌==◌, ◌≤◌, ◌<◌, ◌^◌, bit_and, IfSome};
ghost use Rattle.std.specs.List.{slice_split};
ghost use Rattle.tc_words.specs.MacAddresses.{mac_address_of, mac_length_mask, mac_mask_of, mac_mask_behind};
ghost use Rattle.tc_words.specs.MacAddresses.{masked_mac, mac_of};

use crate::cuts::cut_at;
use crate::groups::read_groups;
use crate::read_decimal;

const ALL_BITS: u64 = (1 << 48) - 1;

#[tactic(auto, unfolding(crate::specs::MacAddresses::mac_address_of))]
fn read_address(text: &[u8]) -> Option<u64>
    ensures value { result ≡ mac_address_of text.now }
    ensures below { IfSome result (λ address. address < 2 ^ 48) }
{
    match read_groups(text, 2, 2, 6) {
        Some((6, number)) => Some(number as u64),
        _ => None,
    }
}

// The mask of so many high bits.
fn length_mask(length: u32) -> u64
    requires { length ≤ 48 }
    ensures value { result ≡ mac_length_mask length }
    ensures below { result < 2 ^ 48 }
{
    (1 << 48) - (1 << (48 - length))
}

fn read_mask(text: &[u8]) -> Option<u64>
    ensures value { result ≡ mac_mask_of text.now }
    ensures below { IfSome result (λ mask. mask < 2 ^ 48) }
{
    match read_address(text) {
        Some(mask) => Some(mask),
        None => match read_decimal(text, 48) {
            Some(length) => Some(length_mask(length)),
            None => None,
        },
    }
}

// The mask that stands alone behind the slash of a word.
fn read_last_mask(text: &[u8]) -> Option<u64>
    ensures value { result ≡ mac_mask_behind (slice_split (λ b. b == 47) text.now) }
    ensures below { IfSome result (λ mask. mask < 2 ^ 48) }
{
    match cut_at(text, b'/') {
        Some(_) => None,
        None => read_mask(text),
    }
}

fn masked(address: Option<u64>, mask: Option<u64>) -> Option<(u64, u64)>
    requires { IfSome mask (λ m. m < 2 ^ 48) }
    ensures value { result ≡ masked_mac address mask }
    ensures under_mask { IfSome result (λ mac. bit_and mac.0 mac.1 ≡ mac.0) }
    ensures value_below { IfSome result (λ mac. mac.0 < 2 ^ 48) }
    ensures mask_below { IfSome result (λ mac. mac.1 < 2 ^ 48) }
{
    let address = address?;
    let mask = mask?;
    Some((address & mask, mask))
}

/// The address AND the mask, and then the mask, of the address of a network card, alone or with `/` and a
/// mask behind it. Both are numbers of 48 bits, the first octet highest (tc-flower(8), `dst_mac`).
///
/// An address is six octets in two hexadecimal digits each, of either case, with `:` between (RFC 6991,
/// section 4). A mask is written as an address, or as the decimal number, 0 to 48, of its high bits. An
/// address alone has all 48 bits in its mask.
///
/// `None` where the word is of no such form.
pub fn read_mac(word: &[u8]) -> Option<(u64, u64)>
    ensures value { result ≡ mac_of word.now }
    ensures under_mask { IfSome result (λ mac. bit_and mac.0 mac.1 ≡ mac.0) }
    ensures value_below { IfSome result (λ mac. mac.0 < 2 ^ 48) }
    ensures mask_below { IfSome result (λ mac. mac.1 < 2 ^ 48) }
{
    match cut_at(word, b'/') {
        Some((address, mask)) => masked(read_address(address), read_last_mask(mask)),
        None => masked(read_address(word), Some(ALL_BITS)),
    }
}
