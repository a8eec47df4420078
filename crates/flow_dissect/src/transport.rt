//! The headers of TCP and UDP.
ghost use Rattle.std.specs.Prelude.{◌≡◌, ◌+◌, ◌≤◌, length};
ghost use Rattle.flow_fields.specs.Values.{values_of, IsTidy};
ghost use Rattle.flow_dissect.specs.Steps.{with_ports, with_transport};

use crate::numbers::u16_at;
use flow_fields::{Key, field, set};

/// The protocol number of TCP (RFC 9293).
const TCP: u8 = 6;

/// The protocol number of UDP (RFC 768).
const UDP: u8 = 17;

#[inline]
#[tactic(auto, unfolding(flow_fields::specs::Table::fields))]
fn put_ports(key: &mut Key<14>, bytes: &[u8], start: usize)
    requires { start + 4 ≤ length bytes.now }
    ensures values { values_of key.new.words ≡ with_ports bytes.now start (values_of key.old.words) }
    ensures tidy { IsTidy key.old.words → IsTidy key.new.words }
{
    set(key, field::SRC_PORT, u16_at(bytes, start) as u64);
    set(key, field::DST_PORT, u16_at(bytes, start + 2) as u64);
}

/// Puts the fields of a transport header of that protocol that starts there, as far as the frame has them.
/// The headers before it end at byte 82 at the latest: 22 bytes of Ethernet with two tags, and 60 of IPv4.
#[inline]
#[tactic(auto, unfolding(flow_fields::specs::Table::fields))]
pub(crate) fn put_transport(key: &mut Key<14>, bytes: &[u8], protocol: u8, start: usize)
    requires near { start ≤ 82 }
    ensures values { values_of key.new.words
        ≡ with_transport bytes.now protocol start (values_of key.old.words) }
    ensures tidy { IsTidy key.old.words → IsTidy key.new.words }
{
    if protocol != TCP && protocol != UDP || bytes.len() < start + 4 {
        return;
    }
    put_ports(key, bytes, start);
    if protocol == TCP && bytes.len() >= start + 14 {
        let flags = u16_at(bytes, start + 12) % 4096;
        set(key, field::TCP_FLAGS, flags as u64);
    }
}
