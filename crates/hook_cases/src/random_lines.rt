//! Random lines.

use crate::dice::Dice;
use std::alloc::{AllocError, Global};

// Where a filter goes. Some of them have one pref and two protocols, which clash.
const TABLES: &[&str] = &[
    "ingress protocol ip pref 1",
    "ingress protocol ip pref 1",
    "ingress protocol ip pref 1",
    "ingress protocol ip pref 2",
    "ingress protocol ip pref 2 chain 1",
    "ingress pref 3",
    "ingress pref 2",
    "egress protocol ip pref 1",
];

const ACTIONS: &[&str] = &[
    "",
    " action ok",
    " action drop",
    " action continue",
    " action gact index 100",
    " action gact index 101",
    " action gact index 102",
    " action gact index 102 action drop",
    " action reclassify",
    " action goto chain 1",
    " action vlan push id 5 action ok",
    " action vlan pop",
    " action skbedit mark 7",
];

const CONTROLS: &[&str] = &["ok", "drop", "continue", "pipe", "reclassify"];

// What a filter takes, of four masks. The first has many filters at times, so that it gets more buckets.
fn fields(alloc: Global, dice: &mut Dice) -> Result<String, AllocError> {
    match dice.below(6) {
        0..=2 => format!(in alloc; "dst_ip 10.0.0.{}", dice.below(40)),
        3 => format!(in alloc; "dst_ip 10.0.0.{}/30", 4 * dice.below(3)),
        4 => format!(in alloc; "ip_proto udp dst_port {}", 53 + dice.below(2)),
        _ => format!(in alloc; "src_ip 10.0.{}.0/24", dice.below(2)),
    }
}

// A filter with a handle.
fn filter(alloc: Global, dice: &mut Dice, command: &str) -> Result<String, AllocError> {
    let table = dice.one(TABLES);
    let handle = 1 + dice.below(40);
    let fields = fields(alloc, dice)?;
    let actions = dice.one(ACTIONS);
    format!(in alloc; "filter {command} dev eth0 {table} handle {handle} flower {fields}{actions}")
}

fn removal(alloc: Global, dice: &mut Dice) -> Result<String, AllocError> {
    let table = dice.one(TABLES);
    if dice.below(10) == 0 {
        return format!(in alloc; "filter del dev eth0 {table}");
    }
    let handle = 1 + dice.below(40);
    format!(in alloc; "filter del dev eth0 {table} handle {handle} flower")
}

fn action(alloc: Global, dice: &mut Dice) -> Result<String, AllocError> {
    let index = 100 + dice.below(3);
    let control = dice.one(CONTROLS);
    match dice.below(8) {
        0..=1 => format!(in alloc; "actions add action {control} index {index}"),
        2 => format!(in alloc; "actions del action gact index {index}"),
        _ => format!(in alloc; "actions change action {control} index {index}"),
    }
}

/// A line, of which the edit may be refused.
pub(crate) fn random_line(alloc: Global, dice: &mut Dice) -> Result<String, AllocError> {
    match dice.below(40) {
        0..=11 => filter(alloc, dice, "add"),
        12..=23 => filter(alloc, dice, "replace"),
        24..=31 => removal(alloc, dice),
        32..=37 => action(alloc, dice),
        38 => String::from_str(alloc, "qdisc add dev eth0 clsact"),
        _ => String::from_str(alloc, "qdisc del dev eth0 clsact"),
    }
}
