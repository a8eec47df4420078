//! A small gateway at its ingress: batch, packets and text of `examples/gateway`.

use crate::tests::{EMPTY, FRAME, add_frame};
use std::alloc::{AllocError, Global};

/// Its batch.
pub(crate) const RULES: &str = "qdisc add dev eth0 clsact
actions add action drop index 100
filter add dev eth0 ingress protocol ip pref 10 flower src_ip 192.0.2.0/24 action gact index 100
filter add dev eth0 ingress protocol ip pref 10 flower src_ip 198.51.100.0/24 action gact index 100
filter add dev eth0 ingress protocol ip pref 20 flower ip_proto tcp dst_port 22 src_ip 10.0.0.0/8 action ok
filter add dev eth0 ingress protocol ip pref 20 flower ip_proto tcp dst_port 22 action gact index 100
filter add dev eth0 ingress protocol ip pref 30 flower ip_proto udp dst_port 53 \
    action skbedit priority 1:10 mark 0x35 action ok
filter add dev eth0 ingress protocol ip pref 40 flower ip_proto tcp tcp_flags 0x2/0x12 action goto chain 5
filter add dev eth0 ingress protocol ip prio 10 chain 5 flower ip_proto tcp dst_port 443 action ok
filter add dev eth0 ingress protocol ip prio 20 chain 5 flower action gact index 100
filter add dev eth0 ingress protocol 802.1Q pref 50 flower vlan_id 100 action vlan pop action reclassify
filter add dev eth0 egress protocol ip pref 10 flower dst_ip 10.20.0.0/16 action vlan push id 20 priority 3
filter add dev eth0 egress protocol all pref 20 flower dst_mac 01:00:5e:00:00:00/25 action drop
";

/// What a walk of its packets writes, worked out by hand.
pub(crate) const WALKED: &str = "packet 1 drop length 60
packet 2 pass length 60
packet 3 drop length 60
packet 4 pass length 60 priority 1:10 mark 53 queue 0
packet 5 pass length 60
packet 6 drop length 60
packet 7 pass length 60
packet 8 drop length 60
counter serial 1 gact index 100 packets 4 bytes 240
counter serial 2 gact index 1 packets 1 bytes 60
counter serial 3 skbedit index 1 packets 1 bytes 60
counter serial 4 gact index 2 packets 1 bytes 60
counter serial 5 gact index 3 packets 2 bytes 120
counter serial 6 gact index 4 packets 1 bytes 60
counter serial 7 vlan index 1 packets 1 bytes 64
counter serial 8 gact index 5 packets 1 bytes 60
counter serial 9 vlan index 2 packets 0 bytes 0
counter serial 10 gact index 6 packets 0 bytes 0
summary edits 13 refused 0 packets 8 passed 4 dropped 4
end
";

// Where a packet to 10.0.0.1 comes from, its port there, and its flags where it is TCP. Others are UDP.
struct Sent {
    from: [u8; 4],
    port: u16,
    flags: Option<u8>,
}

const PACKETS: [Sent; 7] = [
    Sent {
        from: [192, 0, 2, 9],
        port: 53,
        flags: None,
    },
    Sent {
        from: [10, 0, 0, 254],
        port: 22,
        flags: Some(0x02),
    },
    Sent {
        from: [203, 0, 113, 5],
        port: 22,
        flags: Some(0x02),
    },
    Sent {
        from: [203, 0, 113, 5],
        port: 53,
        flags: None,
    },
    Sent {
        from: [203, 0, 113, 5],
        port: 443,
        flags: Some(0x02),
    },
    Sent {
        from: [203, 0, 113, 5],
        port: 80,
        flags: Some(0x02),
    },
    Sent {
        from: [203, 0, 113, 5],
        port: 80,
        flags: Some(0x10),
    },
];

impl Sent {
    // Its frame, made of one from 10.0.0.254 by UDP to port 53.
    fn frame(&self) -> [u8; 60] {
        let mut frame = FRAME;
        [frame[26], frame[27], frame[28], frame[29]] = self.from;
        [frame[36], frame[37]] = self.port.to_be_bytes();
        if let Some(flags) = self.flags {
            // 20 bytes less behind the header, protocol 6, no length, a header of 20 bytes.
            [frame[17], frame[23], frame[39], frame[46], frame[47]] = [0x28, 6, 0, 0x50, flags];
        }
        frame
    }
}

// The first packet with a tag of VLAN 100.
fn tagged(alloc: Global) -> Result<Vec<u8>, AllocError> {
    let frame = PACKETS[0].frame();
    let mut bytes = frame[..12].to_vec(alloc)?;
    bytes.extend_from_slice(&[0x81, 0, 0, 100])?;
    bytes.extend_from_slice(&frame[12..])?;
    Ok(bytes)
}

/// The capture of its packets. The last one is the first again, with a tag.
pub(crate) fn capture(alloc: Global) -> Result<Vec<u8>, AllocError> {
    let mut bytes = EMPTY.to_vec(alloc)?;
    let mut number = 0u8;
    for sent in &PACKETS {
        number = number.saturating_add(1);
        add_frame(&mut bytes, false, number, &sent.frame())?;
    }
    add_frame(&mut bytes, false, 8, &tagged(alloc)?)?;
    Ok(bytes)
}
