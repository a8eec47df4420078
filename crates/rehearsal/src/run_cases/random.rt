//! Jobs at random, each judged by its report.

use crate::run_cases::dice::Dice;
use crate::run_cases::random_jobs::random_job;
use crate::run_cases::running::run_held;
use crate::run_cases::trouble::Trouble;
use std::alloc::Global;
use std::sync::Wait;
use std::test::Fail;
use std::thread;
use std::thread::Threads;
use tc_base::{Gate, MemShelf, NoTender};
use tool_run::{CounterLine, RoundRecord, RunRecord};

// The gate at which everybody lets others go first, so that few steps come in the order of one thread.
struct Courtesy;

impl Gate for Courtesy {
    fn before_visit(&self, _worker: u32, _packet: u32, _visit: u32) {
        thread::yield_now();
    }

    fn before_edit(&self, _control: u32, _line: u64) {
        thread::yield_now();
    }

    fn after_edit(&self, _control: u32, _line: u64) {}
}

// How often the action of a serial ran in a round, and on how many bytes.
fn count_in(round: &RoundRecord, serial: u32) -> (u64, u64) {
    let (mut packets, mut bytes) = (0u64, 0u64);
    for place in 0..round.outcomes.len() {
        for (own, length) in round.outcomes.at(place).executed {
            if *own == serial {
                packets = packets.saturating_add(1);
                bytes = bytes.saturating_add(u64::from(*length));
            }
        }
    }
    (packets, bytes)
}

// Whether a counter is what the rounds come to.
fn is_counted(counter: &CounterLine, rounds: &[RoundRecord]) -> bool {
    let (mut packets, mut bytes) = (0u64, 0u64);
    for round in rounds {
        let (more, longer) = count_in(round, counter.serial);
        packets = packets.saturating_add(more);
        bytes = bytes.saturating_add(longer);
    }
    counter.packets == packets && counter.bytes == bytes
}

/// Whether each counter of a run is what its walks come to.
pub(crate) fn are_counted(run: &RunRecord) -> bool {
    let rounds = run.rounds.as_slice();
    run.counters
        .as_slice()
        .iter()
        .all(|counter| is_counted(counter, rounds))
}

// How many packets were walked.
fn walked_in(run: &RunRecord) -> usize {
    let mut walked = 0usize;
    for round in run.rounds.as_slice() {
        walked = walked.saturating_add(round.outcomes.len());
    }
    walked
}

// Runs a job. Whether its report is lawful and its counters are right, and how many packets were walked.
fn judge<R: Threads + Wait + Sync>(
    rt: &R,
    alloc: Global,
    mut shelf: MemShelf,
) -> Result<(bool, usize), Trouble> {
    let ran = run_held(rt, alloc, &mut shelf, &Courtesy, &mut NoTender);
    drop(shelf);
    let ran = ran?;
    let judged = (ran.is_lawful && are_counted(&ran.run), walked_in(&ran.run));
    drop(ran);
    Ok(judged)
}

// Whether all of many jobs are run as they have to be, and how many packets they have.
fn judge_many<R: Threads + Wait + Sync>(
    rt: &R,
    alloc: Global,
    count: u32,
) -> Result<(bool, usize), Trouble> {
    let mut dice = Dice { seed: 2026 };
    let (mut right, mut packets) = (true, 0usize);
    for _ in 0..count {
        let (is_right, walked) = judge(rt, alloc, random_job(alloc, &mut dice)?)?;
        right = right && is_right;
        packets = packets.saturating_add(walked);
    }
    Ok((right, packets))
}

#[test]
fn random_jobs_are_run_lawfully(rt: HostRuntime) -> Result<(), Fail> {
    let (right, packets) = judge_many(&rt, rt.alloc(), 40)?;
    assert!(rt; right);
    assert!(rt; packets > 500);
    Ok(())
}
