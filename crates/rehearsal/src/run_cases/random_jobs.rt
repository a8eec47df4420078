//! Jobs at random.

use crate::run_cases::dice::Dice;
use crate::run_cases::jobs::{capture_to, no_files};
use crate::run_cases::trouble::Trouble;
use std::alloc::{AllocError, Global};
use tc_base::MemShelf;

// Where a filter goes. Some of them have one pref and two protocols, which clash.
const TABLES: &[&str] = &[
    "ingress protocol ip pref 1",
    "ingress protocol ip pref 1",
    "ingress protocol ip pref 2",
    "ingress pref 2",
    "egress protocol ip pref 1",
];

const ACTIONS: &[&str] = &[
    "",
    " action ok",
    " action drop",
    " action continue",
    " action reclassify",
    " action gact index 100",
    " action gact index 101",
    " action vlan push id 5 action gact index 100",
    " action skbedit mark 7",
];

const CONTROLS: &[&str] = &["ok", "drop", "continue", "pipe"];

// Of three masks.
const FIELDS: &[&str] = &[
    "dst_ip 10.0.0.1",
    "dst_ip 10.0.0.2",
    "dst_ip 10.0.0.3",
    "dst_ip 10.0.0.0/30",
    "ip_proto udp dst_port 53",
];

fn filter(alloc: Global, dice: &mut Dice, command: &str) -> Result<String, AllocError> {
    let table = dice.one(TABLES);
    let handle = 1 + dice.below(6);
    let fields = dice.one(FIELDS);
    let actions = dice.one(ACTIONS);
    format!(in alloc;
        "filter {command} dev eth0 {table} handle {handle} flower {fields}{actions}\n"
    )
}

fn removal(alloc: Global, dice: &mut Dice) -> Result<String, AllocError> {
    let table = dice.one(TABLES);
    if dice.below(4) == 0 {
        return format!(in alloc; "filter del dev eth0 {table}\n");
    }
    let handle = 1 + dice.below(6);
    format!(in alloc; "filter del dev eth0 {table} handle {handle} flower\n")
}

// A line. Its edit may be refused, and at times it has no meaning.
fn line(alloc: Global, dice: &mut Dice) -> Result<String, AllocError> {
    let index = 100 + dice.below(2);
    let control = dice.one(CONTROLS);
    match dice.below(20) {
        0..=5 => filter(alloc, dice, "add"),
        6..=11 => filter(alloc, dice, "replace"),
        12..=14 => removal(alloc, dice),
        15..=17 => format!(in alloc; "actions change action {control} index {index}\n"),
        18 => format!(in alloc; "actions del action gact index {index}\n"),
        _ => String::from_str(alloc, "filter add dev eth1\n"),
    }
}

fn batch(alloc: Global, dice: &mut Dice, lines: u32) -> Result<String, AllocError> {
    let mut text = String::new(alloc);
    for _ in 0..lines {
        text.push_str(&line(alloc, dice)?)?;
    }
    Ok(text)
}

// What stands before the first round at random: most lines are accepted then.
const BASE: &str = "qdisc add dev eth0 clsact
actions add action continue index 100
actions add action reclassify index 101
";

// Adds the batches of a round to a job, each of a control or none.
fn add_batches(
    alloc: Global,
    dice: &mut Dice,
    shelf: &mut MemShelf,
    job: &mut String,
    round: u32,
    controls: u32,
) -> Result<(), Trouble> {
    for control in 1..=controls {
        if dice.below(4) == 0 {
            continue;
        }
        let name = format!(in alloc; "batch{round}.{control}")?;
        let force = dice.one(&["", " force", " force"]);
        job.push_str(&format!(in alloc; "batch {control} {name}{force}\n")?)?;
        let lines = dice.below(30);
        shelf.insert(&name, batch(alloc, dice, lines)?.as_bytes())?;
    }
    Ok(())
}

// A capture to hosts 1 to 4.
fn capture(alloc: Global, dice: &mut Dice) -> Result<Vec<u8>, AllocError> {
    let mut hosts = Vec::new(alloc);
    for _ in 0..dice.below(30) {
        hosts.push(1 + dice.below(4) as u8)?;
    }
    capture_to(alloc, &hosts)
}

// Adds the capture of a round to a job, or none.
fn add_capture(
    alloc: Global,
    dice: &mut Dice,
    shelf: &mut MemShelf,
    job: &mut String,
    round: u32,
) -> Result<(), Trouble> {
    let hook = dice.one(&["ingress", "ingress", "egress", ""]);
    if hook.is_empty() {
        return Ok(());
    }
    let name = format!(in alloc; "capture{round}")?;
    job.push_str(&format!(in alloc; "capture {hook} {name} out{round}\n")?)?;
    shelf.insert(&name, &capture(alloc, dice)?)?;
    Ok(())
}

// Adds rounds to a job, and their files to a shelf.
fn add_rounds(
    alloc: Global,
    dice: &mut Dice,
    shelf: &mut MemShelf,
    job: &mut String,
    controls: u32,
) -> Result<(), Trouble> {
    for round in 0..dice.below(5) {
        job.push_str("round\n")?;
        add_batches(alloc, dice, shelf, job, round, controls)?;
        add_capture(alloc, dice, shelf, job, round)?;
    }
    job.push_str("end\n")?;
    shelf.insert("base", BASE.as_bytes())?;
    shelf.insert("job", job.as_bytes())?;
    Ok(())
}

/// The files of a job, which is named `job`: 1 to 8 workers, 1 to 4 controls, and up to five rounds.
pub(crate) fn random_job(alloc: Global, dice: &mut Dice) -> Result<MemShelf, Trouble> {
    let workers = 1 + dice.below(8);
    let controls = 1 + dice.below(4);
    let mut job = format!(in alloc;
        "clsact job 1\nworkers {workers}\ncontrols {controls}\nround\nbatch 1 base\n"
    )?;
    let mut shelf = no_files(alloc);
    let added = add_rounds(alloc, dice, &mut shelf, &mut job, controls);
    drop(job);
    match added {
        Ok(()) => Ok(shelf),
        Err(trouble) => {
            drop(shelf);
            Err(trouble)
        }
    }
}
