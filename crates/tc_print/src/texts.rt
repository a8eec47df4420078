//! A line that grows word by word.
//!
//! Each function puts one space behind what is there, unless nothing is, and then its word.
ghost use Rattle.std.specs.Prelude.{◌≡◌, ◌<◌, ◌^◌, [], ◌∷◌, fold, decimal, OnOk};
ghost use Rattle.line_texts.specs.Texts.{handle_text, protocol_text, ether_type_text, ip_protocol_text};
ghost use Rattle.line_texts.specs.Texts.{class_text, masked_hex_text, masked_octet_text, mac_text, ipv4_text};
ghost use Rattle.line_texts.specs.Texts.{ipv6_text, prefix_length_of, ipv6_length_of};
ghost use Rattle.tc_print.specs.Texts.{spaced, onto};

use line_texts::{
    push_class, push_ether_type, push_handle, push_ip_protocol, push_ipv4, push_ipv6, push_mac,
    push_masked_hex, push_masked_octet, push_number, push_protocol,
};
use std::alloc::AllocError;
use tc_base::Proto;

pub(crate) fn push_space(out: &mut Vec<u8>) -> Result<(), AllocError>
    ensures { OnOk result (out.new.items ≡ spaced out.old.items) }
{
    if out.len() == 0 {
        return Ok(());
    }
    out.push(b' ')?;
    Ok(())
}

/// Puts one word behind a line, with a space before it unless the line is empty.
///
/// `AllocError`: memory was refused.
pub fn push_word(out: &mut Vec<u8>, word: &str) -> Result<(), AllocError>
    ensures { OnOk result (out.new.items ≡ onto out.old.items word.now) }
{
    push_space(out)?;
    out.extend_from_slice(word.as_bytes())?;
    Ok(())
}

pub(crate) fn push_decimal(out: &mut Vec<u8>, number: u64) -> Result<(), AllocError>
    ensures { OnOk result (out.new.items ≡ onto out.old.items (decimal number)) }
{
    push_space(out)?;
    push_number(out, number)
}

/// Puts a name and its number behind a line, each with a space before it unless the line is empty.
///
/// `AllocError`: memory was refused.
pub fn push_named(out: &mut Vec<u8>, name: &str, number: u64) -> Result<(), AllocError>
    ensures { OnOk result (out.new.items ≡ fold onto out.old.items (name.now ∷ decimal number ∷ [])) }
{
    push_word(out, name)?;
    push_decimal(out, number)
}

/// Puts the protocol of a table behind a line, `all` or an EtherType, with a space before it unless
/// the line is empty.
///
/// `AllocError`: memory was refused.
pub fn push_protocol_word(out: &mut Vec<u8>, protocol: Proto) -> Result<(), AllocError>
    ensures { OnOk result (out.new.items ≡ onto out.old.items (protocol_text protocol)) }
{
    push_space(out)?;
    push_protocol(out, protocol)
}

/// Puts a handle behind a line, as tc(8) shows it, with a space before it unless the line is empty.
///
/// `AllocError`: memory was refused.
pub fn push_handle_word(out: &mut Vec<u8>, handle: u32) -> Result<(), AllocError>
    ensures { OnOk result (out.new.items ≡ onto out.old.items (handle_text handle)) }
{
    push_space(out)?;
    push_handle(out, handle)
}

pub(crate) fn push_ether_type_word(out: &mut Vec<u8>, number: u16) -> Result<(), AllocError>
    ensures { OnOk result (out.new.items ≡ onto out.old.items (ether_type_text number)) }
{
    push_space(out)?;
    push_ether_type(out, number)
}

pub(crate) fn push_class_word(out: &mut Vec<u8>, class: u32) -> Result<(), AllocError>
    ensures { OnOk result (out.new.items ≡ onto out.old.items (class_text class)) }
{
    push_space(out)?;
    push_class(out, class)
}

pub(crate) fn push_ip_protocol_word(out: &mut Vec<u8>, number: u8) -> Result<(), AllocError>
    ensures { OnOk result (out.new.items ≡ onto out.old.items (ip_protocol_text number)) }
{
    push_space(out)?;
    push_ip_protocol(out, number)
}

pub(crate) fn push_masked_hex_word(
    out: &mut Vec<u8>,
    value: u64,
    mask: u64,
) -> Result<(), AllocError>
    ensures { OnOk result (out.new.items ≡ onto out.old.items (masked_hex_text value mask)) }
{
    push_space(out)?;
    push_masked_hex(out, value, mask)
}

pub(crate) fn push_masked_octet_word(
    out: &mut Vec<u8>,
    value: u64,
    mask: u64,
) -> Result<(), AllocError>
    ensures { OnOk result (out.new.items ≡ onto out.old.items (masked_octet_text value mask)) }
{
    push_space(out)?;
    push_masked_octet(out, value, mask)
}

pub(crate) fn push_mac_word(out: &mut Vec<u8>, value: u64, mask: u64) -> Result<(), AllocError>
    requires value { value < 2 ^ 48 }
    requires mask { mask < 2 ^ 48 }
    ensures { OnOk result (out.new.items ≡ onto out.old.items (mac_text value mask)) }
{
    push_space(out)?;
    push_mac(out, value, mask)
}

pub(crate) fn push_ipv4_word(out: &mut Vec<u8>, value: u32, mask: u32) -> Result<(), AllocError>
    ensures { OnOk result (out.new.items ≡ onto out.old.items (ipv4_text value (prefix_length_of mask))) }
{
    push_space(out)?;
    push_ipv4(out, value, mask)
}

pub(crate) fn push_ipv6_word(
    out: &mut Vec<u8>,
    high: u64,
    low: u64,
    mask_high: u64,
    mask_low: u64,
) -> Result<(), AllocError>
    ensures { OnOk result (out.new.items
        ≡ onto out.old.items (ipv6_text high low (ipv6_length_of mask_high mask_low))) }
{
    push_space(out)?;
    push_ipv6(out, high, low, mask_high, mask_low)
}
