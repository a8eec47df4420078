//! Random batches.
use crate::dice::Dice;
use std::alloc::{AllocError, Global};

const HEAD: &[u8] = b"qdisc add dev eth0 clsact\n\
    actions add action continue index 100\n\
    actions add action pipe index 101\n";

// Where a filter goes.
const TABLES: &[&[u8]] = &[
    b"ingress pref 3",
    b"ingress protocol ip pref 1",
    b"ingress protocol 802.1Q pref 2",
    b"ingress protocol ip pref 1 chain 1",
    b"ingress pref 2 chain 1",
    b"egress pref 7",
    b"egress protocol 802.1ad pref 6",
];

// A filter's handle, and its fields: no two handles have the same fields, so that each line is accepted. A
// line whose handle is taken replaces that filter, and may move it to another mask.
const FIELDS: &[&[u8]] = &[
    b"1 flower dst_ip 10.0.0.1",
    b"1 flower dst_ip 10.0.0.0/30",
    b"2 flower dst_ip 10.0.0.2",
    b"2 flower ip_proto udp dst_port 53",
    b"3 flower ip_proto udp dst_port 80",
    b"3 flower src_ip 10.0.0.0/8 ip_ttl 0x40/0xf0",
    b"4 flower vlan_id 5",
    b"4 flower vlan_id 9 vlan_prio 1",
    b"5 flower dst_mac 02:00:00:00:00:01",
    b"5 flower",
];

const ACTIONS: &[&[u8]] = &[
    b" action ok",
    b" action drop",
    b" action continue",
    b" action gact index 100",
    b" action gact index 101",
    b" action reclassify",
    b" action goto chain 1",
    b" action goto chain 2",
    b" action jump 0",
    b" action jump 1",
    b" action jump 2",
    b" action vlan push id 5",
    b" action vlan push protocol 802.1ad id 6 priority 3 continue",
    b" action vlan push id 4094 priority 7 reclassify",
    b" action vlan pop",
    b" action vlan pop reclassify",
    b" action vlan modify id 9 priority 1",
    b" action vlan modify protocol 802.1ad id 3 continue",
    b" action skbedit mark 7",
    b" action skbedit priority 1:2 queue_mapping 3 continue",
];

// A filter with up to four actions.
fn push_filter(text: &mut Vec<u8>, dice: &mut Dice) -> Result<(), AllocError> {
    text.extend_from_slice(b"filter replace dev eth0 ")?;
    text.extend_from_slice(dice.one(TABLES))?;
    text.extend_from_slice(b" handle ")?;
    text.extend_from_slice(dice.one(FIELDS))?;
    for _ in 0..dice.below(5) {
        text.extend_from_slice(dice.one(ACTIONS))?;
    }
    text.extend_from_slice(b"\n")
}

/// A batch of 20 filters, of which some take the place of others.
pub(crate) fn batch(alloc: Global, dice: &mut Dice) -> Result<Vec<u8>, AllocError> {
    let mut text = HEAD.to_vec(alloc)?;
    for _ in 0..20_usize {
        push_filter(&mut text, dice)?;
    }
    Ok(text)
}

const LAST: &[u8] = b"filter add dev eth0 ingress flower action reclassify\n";

// A table before all that were added before it. Its 16 actions and its mask are 17 visits.
const LONG: &[u8] = b"filter add dev eth0 ingress flower \
    action gact index 101 action gact index 101 action gact index 101 action gact index 101 action gact index 101 \
    action gact index 101 action gact index 101 action gact index 101 action gact index 101 action gact index 101 \
    action gact index 101 action gact index 101 action gact index 101 action gact index 101 action gact index 101 \
    action gact index 100\n";

/// A batch whose walks begin anew after so many long lists.
pub(crate) fn long_batch(alloc: Global, tables: usize) -> Result<Vec<u8>, AllocError> {
    let mut text = HEAD.to_vec(alloc)?;
    text.extend_from_slice(LAST)?;
    for _ in 0..tables {
        text.extend_from_slice(LONG)?;
    }
    Ok(text)
}
