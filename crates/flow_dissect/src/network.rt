//! The headers of IPv4 and IPv6.
ghost use Rattle.std.specs.Prelude.{◌≡◌, ◌+◌, ◌≤◌, length, IsTrue};
ghost use Rattle.flow_fields.specs.Values.{values_of, IsTidy};
ghost use Rattle.flow_dissect.specs.Headers.{is_ipv4_at, is_fragment_at, has_ipv4, has_ipv6, network_at};
ghost use Rattle.flow_dissect.specs.Headers.{network_type};
ghost use Rattle.flow_dissect.specs.Steps.{with_ipv4, with_ipv4_packet, with_ipv6, with_ipv6_addresses};
ghost use Rattle.flow_dissect.specs.Steps.{with_ipv6_packet, with_packet};

use crate::link::NetworkPlace;
use crate::numbers::{u16_at, u32_at, u64_at};
use crate::transport::put_transport;
use flow_fields::{Key, field, set};

/// The EtherType of IPv4 (RFC 894).
const IPV4: u16 = 0x0800;

/// The EtherType of IPv6 (RFC 2464).
const IPV6: u16 = 0x86dd;

#[inline]
fn is_ipv4(bytes: &[u8], start: usize) -> bool
    requires { start ≤ 22 }
    ensures { result ≡ is_ipv4_at bytes.now start }
{
    bytes.len() >= start + 20 && bytes[start] % 16 >= 5
}

/// An IPv4 header is the network header of the frame.
#[inline]
#[tactic(auto, unfolding(crate::specs::Headers::has_ipv4))]
pub(crate) fn has_ipv4(bytes: &[u8], network: NetworkPlace) -> bool
    requires long { 14 ≤ length bytes.now }
    requires ether_type { network.ether_type ≡ network_type bytes.now }
    requires start { network.start ≡ network_at bytes.now }
    requires near { network.start ≤ 22 }
    ensures there { result ≡ has_ipv4 bytes.now }
    ensures inside { IsTrue result → network.start + 20 ≤ length bytes.now }
{
    network.ether_type == IPV4 && is_ipv4(bytes, network.start)
}

/// An IPv6 header is the network header of the frame.
#[inline]
#[tactic(auto, unfolding(crate::specs::Headers::has_ipv6))]
fn has_ipv6(bytes: &[u8], network: NetworkPlace) -> bool
    requires long { 14 ≤ length bytes.now }
    requires ether_type { network.ether_type ≡ network_type bytes.now }
    requires start { network.start ≡ network_at bytes.now }
    requires near { network.start ≤ 22 }
    ensures there { result ≡ has_ipv6 bytes.now }
    ensures inside { IsTrue result → network.start + 40 ≤ length bytes.now }
{
    network.ether_type == IPV6 && bytes.len() >= network.start + 40
}

#[inline]
fn is_fragment(bytes: &[u8], start: usize) -> bool
    requires { start + 20 ≤ length bytes.now }
    ensures { result ≡ is_fragment_at bytes.now start }
{
    u16_at(bytes, start + 6) % 0x4000 != 0
}

#[inline]
#[tactic(auto, unfolding(flow_fields::specs::Table::fields))]
fn put_ipv4(key: &mut Key<14>, bytes: &[u8], start: usize)
    requires { start + 20 ≤ length bytes.now }
    ensures values { values_of key.new.words ≡ with_ipv4 bytes.now start (values_of key.old.words) }
    ensures tidy { IsTidy key.old.words → IsTidy key.new.words }
{
    set(key, field::IP_TOS, bytes[start + 1] as u64);
    set(key, field::IP_TTL, bytes[start + 8] as u64);
    set(key, field::IP_PROTO, bytes[start + 9] as u64);
    set(key, field::SRC_IP, u32_at(bytes, start + 12) as u64);
    set(key, field::DST_IP, u32_at(bytes, start + 16) as u64);
}

#[inline]
#[tactic(auto, unfolding(flow_fields::specs::Table::fields))]
fn put_ipv6_addresses(key: &mut Key<14>, bytes: &[u8], start: usize)
    requires { start + 40 ≤ length bytes.now }
    ensures values { values_of key.new.words ≡ with_ipv6_addresses bytes.now start (values_of key.old.words) }
    ensures tidy { IsTidy key.old.words → IsTidy key.new.words }
{
    set(key, field::SRC_IP6_HIGH, u64_at(bytes, start + 8));
    set(key, field::SRC_IP6_LOW, u64_at(bytes, start + 16));
    set(key, field::DST_IP6_HIGH, u64_at(bytes, start + 24));
    set(key, field::DST_IP6_LOW, u64_at(bytes, start + 32));
}

#[inline]
#[tactic(auto, unfolding(flow_fields::specs::Table::fields))]
fn put_ipv6(key: &mut Key<14>, bytes: &[u8], start: usize)
    requires { start + 40 ≤ length bytes.now }
    ensures values { values_of key.new.words ≡ with_ipv6 bytes.now start (values_of key.old.words) }
    ensures tidy { IsTidy key.old.words → IsTidy key.new.words }
{
    let class = u16_at(bytes, start) / 16 % 256;
    set(key, field::IP_TOS, class as u64);
    set(key, field::IP_PROTO, bytes[start + 6] as u64);
    set(key, field::IP_TTL, bytes[start + 7] as u64);
    put_ipv6_addresses(key, bytes, start);
}

#[inline]
fn put_ipv4_packet(key: &mut Key<14>, bytes: &[u8], start: usize)
    requires inside { start + 20 ≤ length bytes.now }
    requires near { start ≤ 22 }
    ensures values { values_of key.new.words ≡ with_ipv4_packet bytes.now start (values_of key.old.words) }
    ensures tidy { IsTidy key.old.words → IsTidy key.new.words }
{
    put_ipv4(key, bytes, start);
    if !is_fragment(bytes, start) {
        let header_bytes = 4 * (bytes[start] % 16) as usize;
        put_transport(key, bytes, bytes[start + 9], start + header_bytes);
    }
}

#[inline]
fn put_ipv6_packet(key: &mut Key<14>, bytes: &[u8], start: usize)
    requires inside { start + 40 ≤ length bytes.now }
    requires near { start ≤ 22 }
    ensures values { values_of key.new.words ≡ with_ipv6_packet bytes.now start (values_of key.old.words) }
    ensures tidy { IsTidy key.old.words → IsTidy key.new.words }
{
    put_ipv6(key, bytes, start);
    put_transport(key, bytes, bytes[start + 6], start + 40);
}

/// Puts the fields of the IP packet that stands there, if one does.
#[inline]
pub(crate) fn put_packet(key: &mut Key<14>, bytes: &[u8], network: NetworkPlace)
    requires long { 14 ≤ length bytes.now }
    requires ether_type { network.ether_type ≡ network_type bytes.now }
    requires start { network.start ≡ network_at bytes.now }
    requires near { network.start ≤ 22 }
    ensures values { values_of key.new.words ≡ with_packet bytes.now (values_of key.old.words) }
    ensures tidy { IsTidy key.old.words → IsTidy key.new.words }
{
    if has_ipv4(bytes, network) {
        put_ipv4_packet(key, bytes, network.start);
    } else if has_ipv6(bytes, network) {
        put_ipv6_packet(key, bytes, network.start);
    }
}
