//! Protocols, by their names where they have one.
ghost use Rattle.std.specs.Prelude.{◌≡◌, ◌<◌, ◌++◌, OnOk};
ghost use Rattle.line_texts.specs.Texts.{marked, two_digits, four_digits, ether_type_text, protocol_text};
ghost use Rattle.line_texts.specs.Texts.{ip_protocol_text};

use crate::numbers::{push_four_digits, push_text, push_two_digits};
use line_words::ether_name;
use std::alloc::AllocError;
use tc_base::Proto;

fn push_ether_number(out: &mut Vec<u8>, number: u16) -> Result<(), AllocError>
    ensures { OnOk result (out.new.items ≡ out.old.items ++ marked (four_digits number)) }
{
    push_text(out, "0x")?;
    push_four_digits(out, u64::from(number))
}

/// Puts an EtherType behind what is there: its name, or else `0x` and four hexadecimal digits.
#[tactic(auto, unfolding(crate::specs::Texts::ether_type_text))]
pub fn push_ether_type(out: &mut Vec<u8>, number: u16) -> Result<(), AllocError>
    ensures { OnOk result (out.new.items ≡ out.old.items ++ ether_type_text number) }
{
    match ether_name(number) {
        Some(name) => push_text(out, name),
        None => push_ether_number(out, number),
    }
}

/// Puts the protocol of a filter behind what is there: `all`, or an EtherType (tc(8), protocol).
pub fn push_protocol(out: &mut Vec<u8>, protocol: Proto) -> Result<(), AllocError>
    ensures { OnOk result (out.new.items ≡ out.old.items ++ protocol_text protocol) }
{
    match protocol {
        Proto::All => push_text(out, "all"),
        Proto::Ether(number) => push_ether_type(out, number),
    }
}

fn push_ip_number(out: &mut Vec<u8>, number: u8) -> Result<(), AllocError>
    ensures { OnOk result (out.new.items ≡ out.old.items ++ marked (two_digits number)) }
{
    push_text(out, "0x")?;
    push_two_digits(out, u64::from(number))
}

/// Puts a protocol over IP behind what is there: `tcp` or `udp` (IANA, Protocol Numbers), or else `0x` and
/// two hexadecimal digits.
#[tactic(auto, unfolding(crate::specs::Texts::ip_protocol_text))]
pub fn push_ip_protocol(out: &mut Vec<u8>, number: u8) -> Result<(), AllocError>
    ensures { OnOk result (out.new.items ≡ out.old.items ++ ip_protocol_text number) }
{
    match number {
        6 => push_text(out, "tcp"),
        17 => push_text(out, "udp"),
        _ => push_ip_number(out, number),
    }
}
