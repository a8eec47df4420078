//! Addresses of network cards, and IPv4 and IPv6 prefixes.
ghost use Rattle.std.specs.Prelude.{◌≡◌, ◌<◌, ◌≤◌, ◌^◌, ◌++◌, OnOk};
ghost use Rattle.line_texts.specs.Texts.{three_octets, mac_address_text, masked_mac_text, mac_text};
ghost use Rattle.line_texts.specs.Texts.{two_octets, dotted, ipv4_text, four_groups, ipv6_address_text};
ghost use Rattle.line_texts.specs.Texts.{ipv6_text, prefix_length_of, ipv6_length_of};

use crate::numbers::{push_number, push_text, push_two_digits, push_two_groups};
use std::alloc::AllocError;

// All 48 bits count.
const WHOLE: u64 = 0xFFFF_FFFF_FFFF;

fn push_three_octets(out: &mut Vec<u8>, number: u64) -> Result<(), AllocError>
    requires { number < 2 ^ 24 }
    ensures { OnOk result (out.new.items ≡ out.old.items ++ three_octets number) }
{
    push_two_digits(out, number / 65536)?;
    push_text(out, ":")?;
    push_two_digits(out, number / 256 % 256)?;
    push_text(out, ":")?;
    push_two_digits(out, number % 256)
}

fn push_mac_address(out: &mut Vec<u8>, address: u64) -> Result<(), AllocError>
    requires { address < 2 ^ 48 }
    ensures { OnOk result (out.new.items ≡ out.old.items ++ mac_address_text address) }
{
    push_three_octets(out, address / 0x100_0000)?;
    push_text(out, ":")?;
    push_three_octets(out, address % 0x100_0000)
}

fn push_masked_mac(out: &mut Vec<u8>, value: u64, mask: u64) -> Result<(), AllocError>
    requires value { value < 2 ^ 48 }
    requires mask { mask < 2 ^ 48 }
    ensures { OnOk result (out.new.items ≡ out.old.items ++ masked_mac_text value mask) }
{
    push_mac_address(out, value)?;
    push_text(out, "/")?;
    push_mac_address(out, mask)
}

/// Puts the address of a network card behind what is there: six groups of two hexadecimal digits with colons
/// between (RFC 6991, section 4), and where not all 48 bits count a slash and the mask alike (tc-flower(8),
/// dst_mac).
#[tactic(auto, unfolding(crate::specs::Texts::mac_text))]
pub fn push_mac(out: &mut Vec<u8>, value: u64, mask: u64) -> Result<(), AllocError>
    requires value { value < 2 ^ 48 }
    requires mask { mask < 2 ^ 48 }
    ensures { OnOk result (out.new.items ≡ out.old.items ++ mac_text value mask) }
{
    if mask == WHOLE {
        return push_mac_address(out, value);
    }
    push_masked_mac(out, value, mask)
}

/// The length of an IPv4 prefix by its mask: how many bits stand above the zeros at its low end.
pub fn prefix_length(mask: u32) -> u32
    ensures { result ≡ prefix_length_of mask }
{
    32 - mask.trailing_zeros()
}

/// The length of an IPv6 prefix by the two halves of its mask.
pub fn ipv6_length(high: u64, low: u64) -> u32
    ensures { result ≡ ipv6_length_of high low }
{
    (64 - high.trailing_zeros()) + (64 - low.trailing_zeros())
}

fn push_two_octets(out: &mut Vec<u8>, number: u64) -> Result<(), AllocError>
    ensures { OnOk result (out.new.items ≡ out.old.items ++ two_octets number) }
{
    push_number(out, number / 256)?;
    push_text(out, ".")?;
    push_number(out, number % 256)
}

fn push_dotted(out: &mut Vec<u8>, address: u64) -> Result<(), AllocError>
    ensures { OnOk result (out.new.items ≡ out.old.items ++ dotted address) }
{
    push_two_octets(out, address / 65536)?;
    push_text(out, ".")?;
    push_two_octets(out, address % 65536)
}

/// Puts an IPv4 prefix behind what is there: `a.b.c.d/len`, four octets in decimal digits (RFC 1123, section
/// 2.1) and the length that the mask tells (RFC 4632, section 3.1).
#[tactic(auto, unfolding(crate::specs::Texts::ipv4_text))]
pub fn push_ipv4(out: &mut Vec<u8>, value: u32, mask: u32) -> Result<(), AllocError>
    ensures { OnOk result (out.new.items ≡ out.old.items ++ ipv4_text value (prefix_length_of mask)) }
{
    push_dotted(out, u64::from(value))?;
    push_text(out, "/")?;
    push_number(out, u64::from(prefix_length(mask)))
}

fn push_four_groups(out: &mut Vec<u8>, number: u64) -> Result<(), AllocError>
    ensures { OnOk result (out.new.items ≡ out.old.items ++ four_groups number) }
{
    push_two_groups(out, number / 0x1_0000_0000)?;
    push_text(out, ":")?;
    push_two_groups(out, number % 0x1_0000_0000)
}

fn push_ipv6_address(out: &mut Vec<u8>, high: u64, low: u64) -> Result<(), AllocError>
    ensures { OnOk result (out.new.items ≡ out.old.items ++ ipv6_address_text high low) }
{
    push_four_groups(out, high)?;
    push_text(out, ":")?;
    push_four_groups(out, low)
}

#[tactic(auto, unfolding(crate::specs::Texts::ipv6_text))]
fn push_with_length(out: &mut Vec<u8>, high: u64, low: u64, length: u32) -> Result<(), AllocError>
    ensures { OnOk result (out.new.items ≡ out.old.items ++ ipv6_text high low length) }
{
    push_ipv6_address(out, high, low)?;
    push_text(out, "/")?;
    push_number(out, u64::from(length))
}

/// Puts an IPv6 prefix behind what is there: its eight groups in hexadecimal digits with colons between and
/// no `::` (RFC 4291, section 2.2, form 1), a slash and the length that the mask tells (section 2.3). Value
/// and mask come in two halves.
pub fn push_ipv6(
    out: &mut Vec<u8>,
    high: u64,
    low: u64,
    mask_high: u64,
    mask_low: u64,
) -> Result<(), AllocError>
    ensures { OnOk result (out.new.items
        ≡ out.old.items ++ ipv6_text high low (ipv6_length_of mask_high mask_low)) }
{
    push_with_length(out, high, low, ipv6_length(mask_high, mask_low))
}
