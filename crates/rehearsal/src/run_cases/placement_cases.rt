//! What walks are placed over, and the lines that come meanwhile.

use crate::run_cases::schedule::Turn;
use std::alloc::{AllocError, Global};

/// A base, on which a packet to 10.0.0.1 makes so many visits, and lines that come meanwhile.
#[derive(Clone, Copy)]
pub(crate) struct Case<'a> {
    pub(crate) base: &'a [&'a str],
    pub(crate) visits: u32,
    pub(crate) lines: [&'a str; 8],
}

/// Three visits: the head, the mask of the host, and the action.
pub(crate) const ONE_FILTER: Case = Case {
    base: &[
        "qdisc add dev eth0 clsact",
        "actions add action drop index 7",
        "add pref 10 handle 1 flower dst_ip 10.0.0.1 action gact index 7",
    ],
    visits: 3,
    lines: [
        "add pref 5 handle 1 flower dst_ip 10.0.0.0/30 action ok",
        "add pref 10 handle 2 flower dst_ip 10.0.0.2 action ok",
        "replace pref 10 handle 1 flower dst_ip 10.0.0.1 action ok",
        "add pref 10 handle 3 flower ip_proto udp dst_port 53 action ok",
        "actions change action continue index 7",
        "replace pref 10 handle 1 flower dst_ip 10.0.0.3 action drop",
        "del pref 10 handle 1 flower",
        "del pref 10",
    ],
};

/// Four visits: the head, the older mask, which has no filter for the packet, the mask of the host, and the
/// action.
pub(crate) const TWO_MASKS: Case = Case {
    base: &[
        "qdisc add dev eth0 clsact",
        "actions add action drop index 7",
        "add pref 10 handle 1 flower dst_ip 10.0.0.4/30 action ok",
        "add pref 10 handle 2 flower dst_ip 10.0.0.1 action gact index 7",
    ],
    visits: 4,
    lines: [
        "add pref 10 handle 3 flower dst_ip 10.0.0.0/30 action ok",
        "add pref 10 handle 4 flower dst_ip 10.0.0.2 action ok",
        "replace pref 10 handle 2 flower dst_ip 10.0.0.1 action pipe action gact index 7",
        "actions change action ok index 7",
        "replace pref 10 handle 2 flower dst_ip 10.0.0.0/30 action gact index 7",
        "replace pref 10 handle 1 flower ip_proto udp dst_port 53 action ok",
        "del pref 10 handle 2 flower",
        "del pref 10 handle 1 flower",
    ],
};

/// Five visits: the head, the mask of the first table, an action that goes on, the mask of the second, and
/// its action.
pub(crate) const TWO_TABLES: Case = Case {
    base: &[
        "qdisc add dev eth0 clsact",
        "actions add action continue index 7",
        "actions add action drop index 8",
        "add pref 10 handle 1 flower dst_ip 10.0.0.1 action gact index 7",
        "add pref 20 handle 1 flower ip_proto udp dst_port 53 action gact index 8",
    ],
    visits: 5,
    lines: [
        "actions change action reclassify index 7",
        "add pref 15 handle 1 flower dst_ip 10.0.0.0/30 action ok",
        "replace pref 20 handle 1 flower ip_proto udp dst_port 53 action gact index 7",
        "add pref 20 handle 2 flower dst_ip 10.0.0.1 action ok",
        "replace pref 20 handle 1 flower ip_proto udp dst_port 54 action ok",
        "actions change action pipe index 7",
        "del pref 10 handle 1 flower",
        "del pref 20",
    ],
};

/// Five visits: the head, a mask, an action that goes to chain 5, the mask there, and the action.
pub(crate) const TWO_CHAINS: Case = Case {
    base: &[
        "qdisc add dev eth0 clsact",
        "actions add action drop index 7",
        "add pref 10 handle 1 flower dst_ip 10.0.0.1 action goto chain 5",
        "add pref 1 chain 5 handle 1 flower dst_ip 10.0.0.1 action gact index 7",
    ],
    visits: 5,
    lines: [
        "replace pref 1 chain 5 handle 1 flower dst_ip 10.0.0.1 action reclassify",
        "add pref 2 chain 5 handle 1 flower dst_ip 10.0.0.0/30 action ok",
        "replace pref 10 handle 1 flower dst_ip 10.0.0.1 action goto chain 6",
        "add pref 1 chain 5 handle 2 flower dst_ip 10.0.0.2 action ok",
        "actions change action continue index 7",
        "replace pref 10 handle 1 flower dst_ip 10.0.0.0/30 action drop",
        "add pref 5 handle 1 flower ip_proto udp dst_port 53 action continue",
        "del pref 1 chain 5",
    ],
};

/// Five visits, as of two tables. The first mask has twelve filters, which are three quarters of its 16
/// slots: with one more it gets 32, and with twelve again 16.
pub(crate) const FULL_MASK: Case = Case {
    base: &[
        "qdisc add dev eth0 clsact",
        "actions add action continue index 7",
        "actions add action drop index 8",
        "add pref 10 handle 1 flower dst_ip 10.0.0.1 action gact index 7",
        "add pref 10 handle 11 flower dst_ip 10.0.0.11 action gact index 8",
        "add pref 10 handle 12 flower dst_ip 10.0.0.12 action gact index 8",
        "add pref 10 handle 13 flower dst_ip 10.0.0.13 action gact index 8",
        "add pref 10 handle 14 flower dst_ip 10.0.0.14 action gact index 8",
        "add pref 10 handle 15 flower dst_ip 10.0.0.15 action gact index 8",
        "add pref 10 handle 16 flower dst_ip 10.0.0.16 action gact index 8",
        "add pref 10 handle 17 flower dst_ip 10.0.0.17 action gact index 8",
        "add pref 10 handle 18 flower dst_ip 10.0.0.18 action gact index 8",
        "add pref 10 handle 19 flower dst_ip 10.0.0.19 action gact index 8",
        "add pref 10 handle 20 flower dst_ip 10.0.0.20 action gact index 8",
        "add pref 10 handle 21 flower dst_ip 10.0.0.21 action gact index 8",
        "add pref 20 handle 1 flower dst_ip 10.0.0.0/30 action gact index 8",
    ],
    visits: 5,
    lines: [
        "add pref 10 handle 22 flower dst_ip 10.0.0.22 action ok",
        "del pref 10 handle 11 flower",
        "add pref 10 handle 23 flower dst_ip 10.0.0.23 action ok",
        "replace pref 10 handle 1 flower dst_ip 10.0.0.1 action reclassify",
        "replace pref 10 handle 12 flower dst_ip 10.0.0.9 action ok",
        "del pref 10 handle 13 flower",
        "actions change action ok index 7",
        "del pref 10 handle 1 flower",
    ],
};

/// Six visits: the head, a mask, two actions, of which the second goes to chain 5, the mask there, and the
/// action.
pub(crate) const TWO_ACTIONS: Case = Case {
    base: &[
        "qdisc add dev eth0 clsact",
        "actions add action pipe index 7",
        "actions add action drop index 8",
        "add pref 10 handle 1 flower dst_ip 10.0.0.0/30 action gact index 7 action goto chain 5",
        "add pref 1 chain 5 handle 1 flower ip_proto udp dst_port 53 action gact index 8",
    ],
    visits: 6,
    lines: [
        "actions change action continue index 7",
        "add pref 10 handle 2 flower dst_ip 10.0.0.1 action ok",
        "replace pref 1 chain 5 handle 1 flower ip_proto udp dst_port 53 action gact index 7 action ok",
        "add pref 1 chain 5 handle 2 flower dst_ip 10.0.0.1 action ok",
        "actions change action ok index 8",
        "replace pref 10 handle 1 flower dst_ip 10.0.0.4/30 action ok",
        "del pref 1 chain 5 handle 1 flower",
        "del pref 10",
    ],
};

/// All cases.
pub(crate) const CASES: [Case; 6] = [
    ONE_FILTER,
    TWO_MASKS,
    TWO_TABLES,
    TWO_CHAINS,
    FULL_MASK,
    TWO_ACTIONS,
];

impl Case<'_> {
    /// The place behind the walk.
    pub(crate) fn last_slot(&self) -> usize {
        (self.visits as usize).saturating_add(1)
    }

    /// The turns in which each line comes before the visit of its place, or behind the walk.
    pub(crate) fn turns(&self, alloc: Global, slots: &[usize]) -> Result<Vec<Turn>, AllocError> {
        let mut turns = Vec::new(alloc);
        for visit in 1..=self.last_slot() {
            for (place, slot) in slots.iter().enumerate() {
                if *slot == visit {
                    turns.push(Turn::Line(place.saturating_add(1)))?;
                }
            }
            if visit < self.last_slot() {
                turns.push(Turn::Visit(1, visit))?;
            }
        }
        Ok(turns)
    }
}
