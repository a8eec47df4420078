//! A small gateway: the rules of `examples/gateway`, and the frames of its ingress capture.

/// The lines of its batch.
pub(crate) const RULES: &[&[u8]] = &[
    b"qdisc add dev eth0 clsact",
    b"actions add action drop index 100",
    b"filter add dev eth0 ingress protocol ip pref 10 flower src_ip 192.0.2.0/24 action gact index 100",
    b"filter add dev eth0 ingress protocol ip pref 10 flower src_ip 198.51.100.0/24 action gact index 100",
    b"filter add dev eth0 ingress protocol ip pref 20 flower ip_proto tcp dst_port 22 src_ip \
        10.0.0.0/8 action ok",
    b"filter add dev eth0 ingress protocol ip pref 20 flower ip_proto tcp dst_port 22 action gact index 100",
    b"filter add dev eth0 ingress protocol ip pref 30 flower ip_proto udp dst_port 53 action \
        skbedit priority 1:10 mark 0x35 action ok",
    b"filter add dev eth0 ingress protocol ip pref 40 flower ip_proto tcp tcp_flags 0x2/0x12 \
        action goto chain 5",
    b"filter add dev eth0 ingress protocol ip prio 10 chain 5 flower ip_proto tcp dst_port 443 action ok",
    b"filter add dev eth0 ingress protocol ip prio 20 chain 5 flower action gact index 100",
    b"filter add dev eth0 ingress protocol 802.1Q pref 50 flower vlan_id 100 action vlan pop \
        action reclassify",
    b"filter add dev eth0 egress protocol ip pref 10 flower dst_ip 10.20.0.0/16 action vlan \
        push id 20 priority 3",
    b"filter add dev eth0 egress protocol all pref 20 flower dst_mac 01:00:5e:00:00:00/25 action drop",
];

/// The beginnings of its frames. Each goes on with zeros up to 64 bytes.
pub(crate) const FRAMES: &[&[u8]] = &[
    &[
        2, 0, 0, 0, 0, 1, 2, 0, 0, 0, 0, 2, 8, 0, 69, 0, 0, 46, 0, 0, 0, 0, 64, 17, 0, 0, 192, 0,
        2, 9, 10, 0, 0, 1, 19, 136, 0, 53, 0, 26,
    ],
    &[
        2, 0, 0, 0, 0, 1, 2, 0, 0, 0, 0, 2, 8, 0, 69, 0, 0, 40, 0, 0, 0, 0, 64, 6, 0, 0, 10, 0, 0,
        254, 10, 0, 0, 1, 19, 136, 0, 22, 0, 0, 0, 0, 0, 0, 0, 0, 80, 2,
    ],
    &[
        2, 0, 0, 0, 0, 1, 2, 0, 0, 0, 0, 2, 8, 0, 69, 0, 0, 40, 0, 0, 0, 0, 64, 6, 0, 0, 203, 0,
        113, 5, 10, 0, 0, 1, 19, 136, 0, 22, 0, 0, 0, 0, 0, 0, 0, 0, 80, 2,
    ],
    &[
        2, 0, 0, 0, 0, 1, 2, 0, 0, 0, 0, 2, 8, 0, 69, 0, 0, 46, 0, 0, 0, 0, 64, 17, 0, 0, 203, 0,
        113, 5, 10, 0, 0, 1, 19, 136, 0, 53, 0, 26,
    ],
    &[
        2, 0, 0, 0, 0, 1, 2, 0, 0, 0, 0, 2, 8, 0, 69, 0, 0, 40, 0, 0, 0, 0, 64, 6, 0, 0, 203, 0,
        113, 5, 10, 0, 0, 1, 19, 136, 1, 187, 0, 0, 0, 0, 0, 0, 0, 0, 80, 2,
    ],
    &[
        2, 0, 0, 0, 0, 1, 2, 0, 0, 0, 0, 2, 8, 0, 69, 0, 0, 40, 0, 0, 0, 0, 64, 6, 0, 0, 203, 0,
        113, 5, 10, 0, 0, 1, 19, 136, 0, 80, 0, 0, 0, 0, 0, 0, 0, 0, 80, 2,
    ],
    &[
        2, 0, 0, 0, 0, 1, 2, 0, 0, 0, 0, 2, 8, 0, 69, 0, 0, 40, 0, 0, 0, 0, 64, 6, 0, 0, 203, 0,
        113, 5, 10, 0, 0, 1, 19, 136, 0, 80, 0, 0, 0, 0, 0, 0, 0, 0, 80, 16,
    ],
    &[
        2, 0, 0, 0, 0, 1, 2, 0, 0, 0, 0, 2, 129, 0, 0, 100, 8, 0, 69, 0, 0, 46, 0, 0, 0, 0, 64, 17,
        0, 0, 192, 0, 2, 9, 10, 0, 0, 1, 19, 136, 0, 53, 0, 26,
    ],
];
