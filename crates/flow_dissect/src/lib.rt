//! The header fields of an Ethernet frame.
//!
//! A frame comes from outside and may end anywhere, so a field of a header that is not there, or that is cut
//! off, is 0. Of IPv4 the 20 bytes before the options must be there, of a transport header the 4 bytes of the
//! ports, and 14 for the flags.
//!
//! The headers are read once each, from left to right, one file a layer: `link` has the two addresses with
//! the EtherType behind them and up to two VLAN tags, `network` has IPv4 and IPv6, and `transport` has TCP
//! and UDP. Each puts its fields into a key that was emptied, and reading ends at the first layer that is
//! not there.
//!
//! `specs/Fields.antt` says what the fields of a frame are, each by its own condition on the whole frame and
//! its own place. The code asks less than these conditions, since a header that is not there has none behind
//! it; `key_of` is proved to give those very values.
//!
//! The functions take no memory, keep nothing, and answer on every input, so any thread may call them.
//! Checksums, lengths and the version told inside of a header are not looked at, extension headers of IPv6
//! are not walked, and a fragment of an IPv4 packet has no ports.
#![tactic(auto)]

ghost use Rattle.std.specs.Prelude.{◌≡◌};
ghost use Rattle.flow_fields.specs.Values.{values_of, IsTidy};
ghost use Rattle.flow_dissect.specs.Fields.{frame_values};

mod link;
mod network;
mod numbers;
mod transport;

use flow_fields::Key;
use frame_edit::Frame;
use link::{network_place, put_addresses, put_tags};
use network::put_packet;

/// The key of a frame: the value of each field that its headers have, and 0 for each other.
///
/// No stray bit of the key is set, so keys of frames with equal fields have equal words.
#[inline]
pub fn key_of(bytes: &[u8]) -> Key<14>
    ensures values { values_of result.words ≡ frame_values bytes.now }
    ensures tidy { IsTidy result.words }
{
    let mut key = Key::new();
    put_key(&mut key, bytes);
    key
}

/// Makes a key that of a frame, where it stands: a key is long to move. What it was doesn't matter.
#[inline]
pub fn put_key(key: &mut Key<14>, bytes: &[u8])
    ensures values { values_of key.new.words ≡ frame_values bytes.now }
    ensures tidy { IsTidy key.new.words }
{
    *key = Key::new();
    if bytes.len() < 14 {
        return;
    }
    put_addresses(key, bytes);
    let network = network_place(bytes);
    put_tags(key, bytes, network.start);
    put_packet(key, bytes, network);
}

/// The key of a frame that is being edited, as its bytes are now.
#[inline]
pub fn dissect(frame: &Frame) -> Key<14>
    ensures values { values_of result.words ≡ frame_values frame.now.bytes }
    ensures tidy { IsTidy result.words }
{
    key_of(frame.bytes())
}
