//! Big-endian numbers in bytes.
ghost use Rattle.std.specs.Prelude.{◌≡◌, ◌+◌, ◌<◌, ◌≤◌, ◌^◌, length};
ghost use Rattle.frame_edit.specs.Tags.{two_at};
ghost use Rattle.flow_dissect.specs.Headers.{four_at, six_at, eight_at};

use byteorder::{BigEndian, ByteOrder};

#[inline]
pub(crate) fn u16_at(bytes: &[u8], at: usize) -> u16
    requires { at + 2 ≤ length bytes.now }
    ensures { result ≡ two_at bytes.now at }
{
    BigEndian::read_u16(&bytes[at..])
}

#[inline]
pub(crate) fn u32_at(bytes: &[u8], at: usize) -> u32
    requires { at + 4 ≤ length bytes.now }
    ensures { result ≡ four_at bytes.now at }
{
    BigEndian::read_u32(&bytes[at..])
}

/// The number in six bytes, read as two and four: a machine has loads of these sizes.
#[inline]
pub(crate) fn u48_at(bytes: &[u8], at: usize) -> u64
    requires { at + 6 ≤ length bytes.now }
    ensures value { result ≡ six_at bytes.now at }
    ensures below { result < 2 ^ 48 }
{
    u16_at(bytes, at) as u64 * 0x1_0000_0000 + u32_at(bytes, at + 2) as u64
}

#[inline]
pub(crate) fn u64_at(bytes: &[u8], at: usize) -> u64
    requires { at + 8 ≤ length bytes.now }
    ensures { result ≡ eight_at bytes.now at }
{
    BigEndian::read_u64(&bytes[at..])
}
