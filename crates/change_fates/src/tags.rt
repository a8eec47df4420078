//! The tags of a frame, as text.
ghost use Rattle.std.specs.Prelude.{◌≡◌, ◌≤◌, ◌<◌, ◌+◌, ◌++◌, ◌∷◌, [], length, Some, None, OnOk, if◌then◌else◌};
ghost use Rattle.std.specs.Char.{digit_char};
ghost use Rattle.frame_edit.specs.Tags.{two_at, is_tag_type};
ghost use Rattle.line_texts.specs.Texts.{two_digits, four_digits};
ghost use Rattle.change_fates.specs.Tags.{is_tag_at, tag_at};
ghost use Rattle.change_fates.specs.Texts.{tag_text, tags_text};

use byteorder::{BigEndian, ByteOrder};
use std::alloc::AllocError;
use walk_texts::push_text;

// The bytes of the two addresses before the first tag, and those of a tag.
const ADDRESSES: usize = 12;

const TAG: usize = 4;

/// The EtherType of a tag, by which it is one, and its control information.
#[derive(Clone, Copy, Debug)]
pub struct Tag {
    pub tpid: u16,
    pub tci: u16,
}

fn u16_at(bytes: &[u8], at: usize) -> u16
    requires { at + 2 ≤ length bytes.now }
    ensures { result ≡ two_at bytes.now at }
{
    BigEndian::read_u16(&bytes[at..])
}

// The EtherTypes of a customer tag and of a service tag (IEEE 802.1Q).
fn is_tpid(number: u16) -> bool
    ensures { result ≡ is_tag_type number }
{
    number == 0x8100 || number == 0x88a8
}

// The tag that stands at a place, with the EtherType behind it.
fn tag_at(bytes: &[u8], at: usize) -> Option<Tag>
    ensures { result ≡ (if is_tag_at bytes.now at then Some (tag_at bytes.now at) else None) }
{
    if bytes.len() < at.saturating_add(TAG + 2) || !is_tpid(u16_at(bytes, at)) {
        return None;
    }
    Some(Tag {
        tpid: u16_at(bytes, at),
        tci: u16_at(bytes, at + 2),
    })
}

fn hex_digit(number: u16) -> u8
    requires { number < 16 }
    ensures { result ≡ digit_char number }
{
    let number = number as u8;
    if number < 10 {
        b'0' + number
    } else {
        b'a' - 10 + number
    }
}

fn push_two_digits(out: &mut Vec<u8>, number: u16) -> Result<(), AllocError>
    requires { number < 256 }
    ensures { OnOk result (out.new.items ≡ out.old.items ++ two_digits number) }
{
    out.push(hex_digit(number / 16))?;
    out.push(hex_digit(number % 16))?;
    Ok(())
}

fn push_four_digits(out: &mut Vec<u8>, number: u16) -> Result<(), AllocError>
    ensures { OnOk result (out.new.items ≡ out.old.items ++ four_digits number) }
{
    push_two_digits(out, number / 256)?;
    push_two_digits(out, number % 256)
}

#[tactic(auto, unfolding(crate::specs::Texts::tag_text))]
fn push_tag(out: &mut Vec<u8>, tag: Tag) -> Result<(), AllocError>
    ensures { OnOk result (out.new.items ≡ out.old.items ++ tag_text tag) }
{
    push_four_digits(out, tag.tpid)?;
    push_text(out, ":")?;
    push_four_digits(out, tag.tci)
}

/// Puts the tags of a frame, the outermost first, where it has any.
///
/// `AllocError`: memory was refused.
pub(crate) fn push_tags(out: &mut Vec<u8>, bytes: &[u8]) -> Result<(), AllocError>
    ensures { OnOk result (out.new.items ≡ out.old.items ++ tags_text bytes.now) }
{
    let mut label: &[u8] = b" tags ";
    let mut at = ADDRESSES;
    while let Some(tag) = tag_at(bytes, at) {
        out.extend_from_slice(label)?;
        push_tag(out, tag)?;
        label = b",";
        at += TAG;
    }
    Ok(())
}
