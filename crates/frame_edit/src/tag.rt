//! Edits of a tag in a slice of bytes.
ghost use Rattle.std.specs.Prelude.{◌≡◌, ◌+◌, ◌≤◌, ◌<◌, length, drop};
ghost use Rattle.std.specs.Option.{ForSome};
ghost use Rattle.frame_edit.specs.Tags.{two_at, is_tag_type, is_tagged, control_with, with_tag, without_tag};
ghost use Rattle.frame_edit.specs.Tags.{retagged, modified};

use byteorder::{BigEndian, ByteOrder};

/// The bytes of the two addresses in front of a tag.
pub(crate) const ADDRESSES: usize = 12;

/// The bytes of the two addresses and an EtherType.
pub(crate) const HEADER: usize = 14;

/// The bytes of a tag: its EtherType (TPID) and its control information (TCI).
pub(crate) const TAG: usize = 4;

/// The TPID of a customer VLAN tag (IEEE 802.1Q).
const CUSTOMER_TAG: u16 = 0x8100;

/// The TPID of a service VLAN tag (IEEE 802.1Q).
const SERVICE_TAG: u16 = 0x88a8;

pub(crate) fn u16_at(bytes: &[u8], at: usize) -> u16
    requires { at + 2 ≤ length bytes.now }
    ensures { result ≡ two_at bytes.now at }
{
    BigEndian::read_u16(&bytes[at..])
}

fn is_tpid(number: u16) -> bool
    ensures { result ≡ is_tag_type number }
{
    number == CUSTOMER_TAG || number == SERVICE_TAG
}

pub(crate) fn has_tag(frame: &[u8]) -> bool
    ensures { result ≡ is_tagged frame.now }
{
    frame.len() >= HEADER + TAG && is_tpid(u16_at(frame, ADDRESSES))
}

// The control information with another id and, where one is given, another priority.
fn changed_control(tci: u16, id: u16, priority: Option<u8>) -> u16
    requires id { id < 4096 }
    requires priority { ForSome priority (λ p. p < 8) }
    ensures { result ≡ control_with tci id priority }
{
    let priority = match priority {
        Some(priority) => u16::from(priority),
        None => tci >> 13,
    };
    let drop_eligible = (tci >> 12) % 2;
    (priority << 13) + (drop_eligible << 12) + id
}

// Writes a tag behind the addresses, over the four bytes that stand there.
fn write_tag(frame: &mut [u8], tpid: u16, tci: u16)
    requires { 16 ≤ length frame.old }
    ensures { frame.new ≡ retagged frame.old tpid tci }
{
    BigEndian::write_u16(&mut frame[ADDRESSES..], tpid);
    BigEndian::write_u16(&mut frame[ADDRESSES + 2..], tci);
}

// Puts a tag into the frame that begins four bytes into the room. The longer frame takes all of it.
pub(crate) fn insert_tag(room: &mut [u8], tpid: u16, tci: u16)
    requires { 18 ≤ length room.old }
    ensures { room.new ≡ with_tag (drop 4 room.old) tpid tci }
{
    room.copy_within(TAG..TAG + ADDRESSES, 0);
    write_tag(room, tpid, tci);
}

// Moves the addresses over the tag. The frame without it begins four bytes on.
pub(crate) fn remove_tag(frame: &mut [u8])
    requires { 18 ≤ length frame.old }
    ensures { drop 4 frame.new ≡ without_tag frame.old }
{
    frame.copy_within(..ADDRESSES, TAG);
}

// Changes the tag of a tagged frame.
pub(crate) fn modify_tag(frame: &mut [u8], id: u16, priority: Option<u8>, tpid: u16)
    requires id { id < 4096 }
    requires priority { ForSome priority (λ p. p < 8) }
    ensures { frame.new ≡ modified frame.old id priority tpid }
{
    if has_tag(frame) {
        let tci = changed_control(u16_at(frame, ADDRESSES + 2), id, priority);
        write_tag(frame, tpid, tci);
    }
}
