//! The numbers of the fields: where each has its row in the table.

/// The destination address of the Ethernet header.
pub const DST_MAC: u32 = 0;
/// The source address of the Ethernet header.
pub const SRC_MAC: u32 = 1;
/// The VLAN number of the first tag.
pub const VLAN_ID: u32 = 2;
/// The priority of the first tag.
pub const VLAN_PRIO: u32 = 3;
/// The EtherType behind the first tag.
pub const VLAN_ETHTYPE: u32 = 4;
/// The protocol that the IP header carries.
pub const IP_PROTO: u32 = 5;
/// The source address of IPv4.
pub const SRC_IP: u32 = 6;
/// The destination address of IPv4.
pub const DST_IP: u32 = 7;
/// The source port of TCP or UDP.
pub const SRC_PORT: u32 = 8;
/// The destination port of TCP or UDP.
pub const DST_PORT: u32 = 9;
/// The flags of TCP.
pub const TCP_FLAGS: u32 = 10;
/// The VLAN number of the second tag.
pub const CVLAN_ID: u32 = 11;
/// The priority of the second tag.
pub const CVLAN_PRIO: u32 = 12;
/// The EtherType behind the second tag.
pub const CVLAN_ETHTYPE: u32 = 13;
/// The type of service of IPv4, or the traffic class of IPv6.
pub const IP_TOS: u32 = 14;
/// The time to live of IPv4, or the hop limit of IPv6.
pub const IP_TTL: u32 = 15;
/// The first eight bytes of the source address of IPv6.
pub const SRC_IP6_HIGH: u32 = 16;
/// The last eight bytes of the source address of IPv6.
pub const SRC_IP6_LOW: u32 = 17;
/// The first eight bytes of the destination address of IPv6.
pub const DST_IP6_HIGH: u32 = 18;
/// The last eight bytes of the destination address of IPv6.
pub const DST_IP6_LOW: u32 = 19;
