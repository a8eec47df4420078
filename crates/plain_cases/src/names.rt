//! The names of fields.
use crate::same::same;
use flow_fields::{field, field_of};

// Words with the numbers of the fields that they name.
const NAMES: &[(&[u8], Option<u32>)] = &[
    (b"dst_mac", Some(field::DST_MAC)),
    (b"src_mac", Some(field::SRC_MAC)),
    (b"vlan_id", Some(field::VLAN_ID)),
    (b"vlan_prio", Some(field::VLAN_PRIO)),
    (b"vlan_ethtype", Some(field::VLAN_ETHTYPE)),
    (b"ip_proto", Some(field::IP_PROTO)),
    (b"src_ip", Some(field::SRC_IP)),
    (b"dst_ip", Some(field::DST_IP)),
    (b"src_port", Some(field::SRC_PORT)),
    (b"dst_port", Some(field::DST_PORT)),
    (b"tcp_flags", Some(field::TCP_FLAGS)),
    (b"cvlan_id", Some(field::CVLAN_ID)),
    (b"cvlan_prio", Some(field::CVLAN_PRIO)),
    (b"cvlan_ethtype", Some(field::CVLAN_ETHTYPE)),
    (b"ip_tos", Some(field::IP_TOS)),
    (b"ip_ttl", Some(field::IP_TTL)),
    (b"src_ip6_high", Some(field::SRC_IP6_HIGH)),
    (b"src_ip6_low", Some(field::SRC_IP6_LOW)),
    (b"dst_ip6_high", Some(field::DST_IP6_HIGH)),
    (b"dst_ip6_low", Some(field::DST_IP6_LOW)),
    (b"dst_por", None),
    (b"dst_ports", None),
    (b"", None),
];

#[test]
fn names_and_numbers(rt: HostRuntime) {
    for (name, number) in NAMES {
        same(&rt, field_of(name), *number);
    }
}
