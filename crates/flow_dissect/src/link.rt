//! The Ethernet header: the two addresses, the EtherType, and the VLAN tags.
ghost use Rattle.std.specs.Prelude.{◌≡◌, ◌+◌, ◌≤◌, length};
ghost use Rattle.flow_fields.specs.Values.{values_of, IsTidy};
ghost use Rattle.frame_edit.specs.Tags.{is_tag_type};
ghost use Rattle.flow_dissect.specs.Headers.{network_at, network_type};
ghost use Rattle.flow_dissect.specs.Steps.{with_addresses, with_first_tag, with_second_tag, with_tags};

use crate::numbers::{u16_at, u48_at};
use flow_fields::{Key, field, set};

/// The EtherType of a customer VLAN tag (IEEE 802.1Q).
const CUSTOMER_TAG: u16 = 0x8100;

/// The EtherType of a service VLAN tag (IEEE 802.1Q).
const SERVICE_TAG: u16 = 0x88a8;

/// Where the network header of a frame starts, and the EtherType just before it.
#[derive(Clone, Copy)]
pub(crate) struct NetworkPlace {
    pub(crate) ether_type: u16,
    pub(crate) start: usize,
}

#[inline]
fn is_tag(ether_type: u16) -> bool
    ensures { result ≡ is_tag_type ether_type }
{
    ether_type == CUSTOMER_TAG || ether_type == SERVICE_TAG
}

/// Where the network header starts: behind the tags that are there.
#[inline]
pub(crate) fn network_place(bytes: &[u8]) -> NetworkPlace
    requires { 14 ≤ length bytes.now }
    ensures ether_type { result.ether_type ≡ network_type bytes.now }
    ensures start { result.start ≡ network_at bytes.now }
    ensures inside { result.start ≤ length bytes.now }
    ensures near { result.start ≤ 22 }
{
    let outer = u16_at(bytes, 12);
    if !is_tag(outer) || bytes.len() < 18 {
        return NetworkPlace {
            ether_type: outer,
            start: 14,
        };
    }
    let inner = u16_at(bytes, 16);
    if !is_tag(inner) || bytes.len() < 22 {
        return NetworkPlace {
            ether_type: inner,
            start: 18,
        };
    }
    NetworkPlace {
        ether_type: u16_at(bytes, 20),
        start: 22,
    }
}

#[inline]
#[tactic(auto, unfolding(flow_fields::specs::Table::fields))]
pub(crate) fn put_addresses(key: &mut Key<14>, bytes: &[u8])
    requires { 14 ≤ length bytes.now }
    ensures values { values_of key.new.words ≡ with_addresses bytes.now (values_of key.old.words) }
    ensures tidy { IsTidy key.old.words → IsTidy key.new.words }
{
    set(key, field::DST_MAC, u48_at(bytes, 0));
    set(key, field::SRC_MAC, u48_at(bytes, 6));
}

#[inline]
#[tactic(auto, unfolding(flow_fields::specs::Table::fields))]
fn put_first_tag(key: &mut Key<14>, bytes: &[u8])
    requires { 18 ≤ length bytes.now }
    ensures values { values_of key.new.words ≡ with_first_tag bytes.now (values_of key.old.words) }
    ensures tidy { IsTidy key.old.words → IsTidy key.new.words }
{
    let control = u16_at(bytes, 14);
    set(key, field::VLAN_ID, (control % 4096) as u64);
    set(key, field::VLAN_PRIO, (control / 8192) as u64);
    set(key, field::VLAN_ETHTYPE, u16_at(bytes, 16) as u64);
}

#[inline]
#[tactic(auto, unfolding(flow_fields::specs::Table::fields))]
fn put_second_tag(key: &mut Key<14>, bytes: &[u8])
    requires { 22 ≤ length bytes.now }
    ensures values { values_of key.new.words ≡ with_second_tag bytes.now (values_of key.old.words) }
    ensures tidy { IsTidy key.old.words → IsTidy key.new.words }
{
    let control = u16_at(bytes, 18);
    set(key, field::CVLAN_ID, (control % 4096) as u64);
    set(key, field::CVLAN_PRIO, (control / 8192) as u64);
    set(key, field::CVLAN_ETHTYPE, u16_at(bytes, 20) as u64);
}

/// Puts the fields of the tags before a network header that starts there.
#[inline]
pub(crate) fn put_tags(key: &mut Key<14>, bytes: &[u8], start: usize)
    requires { start ≤ length bytes.now }
    ensures values { values_of key.new.words ≡ with_tags bytes.now start (values_of key.old.words) }
    ensures tidy { IsTidy key.old.words → IsTidy key.new.words }
{
    if start < 18 {
        return;
    }
    put_first_tag(key, bytes);
    if start == 22 {
        put_second_tag(key, bytes);
    }
}
