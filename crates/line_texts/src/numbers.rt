//! Numbers in decimal and in hexadecimal digits, alone and in pairs.
ghost use Rattle.std.specs.Prelude.{◌≡◌, ◌<◌, ◌++◌, ◌∷◌, [], decimal, OnOk};
ghost use Rattle.std.specs.Char.{digit_char};
ghost use Rattle.line_texts.specs.Texts.{hex_text, marked, handle_text, two_digits, four_digits, two_groups};
ghost use Rattle.line_texts.specs.Texts.{class_text, masked_hex_text, masked_octet_text};

use itoa::Buffer;
use std::alloc::AllocError;

pub(crate) fn push_text(out: &mut Vec<u8>, text: &str) -> Result<(), AllocError>
    ensures { OnOk result (out.new.items ≡ out.old.items ++ text.now) }
{
    out.extend_from_slice(text.as_bytes())
}

/// Puts a number behind what is there, in decimal digits.
pub fn push_number(out: &mut Vec<u8>, number: u64) -> Result<(), AllocError>
    ensures { OnOk result (out.new.items ≡ out.old.items ++ decimal number) }
{
    let mut digits = Buffer::new();
    push_text(out, digits.format(number))
}

// The digit for a number below 16.
fn hex_digit(number: u64) -> u8
    requires { number < 16 }
    ensures { result ≡ digit_char number }
{
    let number = number as u8;
    if number < 10 {
        b'0' + number
    } else {
        b'a' - 10 + number
    }
}

fn push_digit(out: &mut Vec<u8>, number: u64) -> Result<(), AllocError>
    requires { number < 16 }
    ensures { OnOk result (out.new.items ≡ out.old.items ++ digit_char number ∷ []) }
{
    out.push(hex_digit(number))?;
    Ok(())
}

// Puts a number in as many digits as it has: those in front of the last one are the digits of its sixteenth.
fn push_hex(out: &mut Vec<u8>, number: u64) -> Result<(), AllocError>
    ensures { OnOk result (out.new.items ≡ out.old.items ++ hex_text number) }
{
    if number < 16 {
        return push_digit(out, number);
    }
    push_hex(out, number / 16)?;
    push_digit(out, number % 16)
}

fn push_marked_hex(out: &mut Vec<u8>, number: u64) -> Result<(), AllocError>
    ensures { OnOk result (out.new.items ≡ out.old.items ++ marked (hex_text number)) }
{
    push_text(out, "0x")?;
    push_hex(out, number)
}

pub(crate) fn push_two_digits(out: &mut Vec<u8>, number: u64) -> Result<(), AllocError>
    requires { number < 256 }
    ensures { OnOk result (out.new.items ≡ out.old.items ++ two_digits number) }
{
    push_digit(out, number / 16)?;
    push_digit(out, number % 16)
}

pub(crate) fn push_four_digits(out: &mut Vec<u8>, number: u64) -> Result<(), AllocError>
    requires { number < 65536 }
    ensures { OnOk result (out.new.items ≡ out.old.items ++ four_digits number) }
{
    push_two_digits(out, number / 256)?;
    push_two_digits(out, number % 256)
}

/// Puts a handle behind what is there: `0x` and its hexadecimal digits, as tc(8) shows the handles of
/// filters.
#[tactic(auto, unfolding(crate::specs::Texts::handle_text))]
pub fn push_handle(out: &mut Vec<u8>, handle: u32) -> Result<(), AllocError>
    ensures { OnOk result (out.new.items ≡ out.old.items ++ handle_text handle) }
{
    push_marked_hex(out, u64::from(handle))
}

// Puts two groups of 16 bits with a colon between, as classes and IPv6 addresses have them.
pub(crate) fn push_two_groups(out: &mut Vec<u8>, number: u64) -> Result<(), AllocError>
    ensures { OnOk result (out.new.items ≡ out.old.items ++ two_groups number) }
{
    push_hex(out, number / 65536)?;
    push_text(out, ":")?;
    push_hex(out, number % 65536)
}

/// Puts a class behind what is there: `H:H`, its major and its minor number of 16 bits in hexadecimal digits
/// (tc(8), classid).
#[tactic(auto, unfolding(crate::specs::Texts::class_text))]
pub fn push_class(out: &mut Vec<u8>, class: u32) -> Result<(), AllocError>
    ensures { OnOk result (out.new.items ≡ out.old.items ++ class_text class) }
{
    push_two_groups(out, u64::from(class))
}

/// Puts a value and its mask behind what is there: `0xV/0xM` (tc-flower(8), ip_tos and tcp_flags).
#[tactic(auto, unfolding(crate::specs::Texts::masked_hex_text))]
pub fn push_masked_hex(out: &mut Vec<u8>, value: u64, mask: u64) -> Result<(), AllocError>
    ensures { OnOk result (out.new.items ≡ out.old.items ++ masked_hex_text value mask) }
{
    push_marked_hex(out, value)?;
    push_text(out, "/")?;
    push_marked_hex(out, mask)
}

/// Puts a value and its mask behind what is there: `V/M` in decimal digits (tc-flower(8), ip_ttl).
#[tactic(auto, unfolding(crate::specs::Texts::masked_octet_text))]
pub fn push_masked_octet(out: &mut Vec<u8>, value: u64, mask: u64) -> Result<(), AllocError>
    ensures { OnOk result (out.new.items ≡ out.old.items ++ masked_octet_text value mask) }
{
    push_number(out, value)?;
    push_text(out, "/")?;
    push_number(out, mask)
}
